//! The engine for C: a static library. A call takes its inputs as pointers and lengths and answers through a record, which
//! names blocks that the caller frees. `bindings/c/yaml_c.h` declares for C what is here.
#![tactic(auto)]

mod composing;
mod emitting;
mod engine;
mod normalizing;
mod onward;
mod parsing;
mod parting;
mod scanning;
mod serializing;
mod settings;

pub use composing::yaml_c_compose;
pub use emitting::yaml_c_emit;
pub use engine::{yaml_c_events, yaml_c_reformat, yaml_c_reload, yaml_c_same};
pub use normalizing::{yaml_c_check, yaml_c_normalize};
pub use onward::yaml_c_emit_on;
pub use parsing::{yaml_c_front, yaml_c_parse};
pub use parting::{yaml_c_diff, yaml_c_diff_documents};
pub use scanning::{yaml_c_decode, yaml_c_scan};
pub use serializing::yaml_c_serialize;
pub use settings::yaml_c_defaults;
pub use yaml_round_answers::{
    yaml_c_answer, yaml_c_directive, yaml_c_event, yaml_c_graph, yaml_c_level, yaml_c_mark,
    yaml_c_node, yaml_c_parsed, yaml_c_parting, yaml_c_place, yaml_c_scanned, yaml_c_settings,
    yaml_c_span, yaml_c_spot, yaml_c_spots, yaml_c_stand, yaml_c_step, yaml_c_token, yaml_c_turn,
    yaml_c_turns,
};
