//! Records of an input's tokens with the characters before their marks.

ghost use Rattle.std.specs.Prelude.{◌≡◌, map};
ghost use Rattle.yaml_round_answers.specs.Characters.{Counts};
ghost use Rattle.yaml_round_answers.specs.TokensCounted.{token_counted};

use crate::counted::count_mark;
use crate::counting::Count;
use crate::token_record::yaml_c_token;

fn count_token(text: &[u8], count: &mut Count, token: &mut yaml_c_token)
    requires { Counts text.now count.old }
    ensures counts { Counts text.now count.new }
    ensures is { token.new ≡ token_counted text.now token.old }
{
    count_mark(text, count, &mut token.start);
    count_mark(text, count, &mut token.end);
}

/// Counts the characters before the marks of all tokens of a text.
pub fn count_tokens(text: &[u8], tokens: &mut Vec<yaml_c_token>)
    ensures { tokens.new.items ≡ map (token_counted text.now) tokens.old.items }
{
    let mut count = Count::new(text);
    for i in 0..tokens.len() {
        count_token(text, &mut count, &mut tokens[i]);
    }
}
