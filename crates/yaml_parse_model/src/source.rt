//! Where a parser's tokens come from.

ghost use Rattle.std.specs.Prelude.{List, Option, IfOk, IfErr, ⊤};
ghost use Rattle.yaml_scan_model.specs.scan_types.Tokens.{Token, token_of};
ghost use Rattle.yaml_scan_model.specs.scan_types.Faults.{Fault, fault_of};
ghost use Rattle.yaml_parse_model.specs.Source.{GivesToken, GivesFault, Answer, answer_of};

/// A source of tokens. Its meaning is the finite list of tokens to come, whose texts are UTF-8, and the fault that
/// ends the list, if any. After both it answers the empty token. Where a growth is refused it answers
/// `yaml_memory_fault` of the layer `Scanner` or `Reader`; after that nothing is to come.
pub trait yaml_token_source_t: Drop {
    // The tokens to come.
    ghost to_come: { Self → List Token };

    // The fault that ends them, if any.
    ghost fault_to_come: { Self → Option Fault };

    // How a source's own state goes on beside these, by what a call answers. A source that keeps nothing says nothing of it.
    ghost own_step: { Self → Answer → Self → Type 0 } = { λ _ _ _. ⊤ };

    /// The next token; or the fault that ends the list, once; or, from then on, the empty token.
    fn next_token(&mut self) -> Result<yaml_token_t, yaml_fault_t>
        ensures ok { IfOk result (λ t. GivesToken (to_come self.old) (fault_to_come self.old)
            (token_of t) (to_come self.new) (fault_to_come self.new)) }
        ensures err { IfErr result (λ f. GivesFault (to_come self.old) (fault_to_come self.old)
            (fault_of f) (to_come self.new) (fault_to_come self.new)) }
        ensures own { own_step self.old (answer_of result) self.new };
}

use yaml_scan_model::{yaml_fault_t, yaml_token_t};
