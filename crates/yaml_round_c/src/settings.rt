//! How an answer is written where nothing else is asked for.

ghost use Rattle.std.specs.Prelude.{◌≡◌, Some};
ghost use Rattle.yaml_round_answers.specs.Settings.{settings_meant, default_record, default_settings};

/// Sets the defaults, those of `yaml_settings_t::new`.
#[unsafe(no_mangle)]
pub extern "C" fn yaml_c_defaults(settings: &mut yaml_c_settings)
    ensures engine { settings_meant settings.new ≡ Some default_settings }
    // The numbers themselves: `yaml_c_emit` takes an encoding of 0 in another way than the engine does.
    ensures numbers { settings.new ≡ default_record }
{
    *settings = yaml_c_settings {
        encoding: 1,
        canonical: 1,
        indent: DEFAULT_INDENT,
        width: DEFAULT_WIDTH,
        unicode: 1,
        line_break: 2,
        limit: DEFAULT_LIMIT,
    };
}

use yaml_round_answers::{DEFAULT_INDENT, DEFAULT_LIMIT, DEFAULT_WIDTH, yaml_c_settings};
