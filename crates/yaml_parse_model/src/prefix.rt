//! What a parser and the constructors answer when they refuse.

ghost use Rattle.std.specs.Prelude.{◌≡◌};
ghost use Rattle.yaml_parse_model.specs.Prefix.{IsPrefixOf};

use std::alloc::AllocError;
use yaml_scan_model::{yaml_error_type_t, yaml_fault_t, yaml_mark_t, yaml_origin_t};

/// The fault that a parser has answered, field by field; before one the kind is `YAML_NO_ERROR`.
#[derive(Clone, Copy, PartialEq, Eq, Debug)]
pub struct yaml_parser_t_prefix {
    pub kind: yaml_error_type_t,
    pub problem: &'static str,
    pub offset: u64,
    pub value: i32,
    pub problem_mark: yaml_mark_t,
    pub context: Option<&'static str>,
    pub context_mark: yaml_mark_t,
    pub origin: yaml_origin_t,
}

impl yaml_parser_t_prefix {
    /// The fields of that fault.
    pub fn of(fault: &yaml_fault_t) -> yaml_parser_t_prefix
        ensures { IsPrefixOf result fault.now }
    {
        yaml_parser_t_prefix {
            kind: fault.kind,
            problem: fault.problem,
            offset: fault.offset,
            value: fault.value,
            problem_mark: fault.problem_mark,
            context: fault.context,
            context_mark: fault.context_mark,
            origin: fault.origin,
        }
    }
}

/// Why a constructor or an adding call was refused.
#[derive(Clone, Copy, PartialEq, Eq, Debug)]
pub enum yaml_text_fault_t {
    /// A text isn't UTF-8. This is looked at before any growth.
    NotUtf8,
    /// A growth was refused.
    Memory,
}

impl From<AllocError> for yaml_text_fault_t {
    ghost use Rattle.yaml_parse_model.specs.declared.prefix.yaml_text_fault_t.TheVariants.{Memory};

    ghost from_gives = { λ _ f. f ≡ Memory };

    fn from(_refused: AllocError) -> yaml_text_fault_t {
        yaml_text_fault_t::Memory
    }
}
