//! The writing of a text to an output.

ghost use Rattle.std.specs.Prelude.{◌≡◌, ◌≤◌, length, take, true, false, IfErr, OnOk, OnErr};
ghost use Rattle.std.specs.Io.KnownBytes.{Appends};

use crate::{put_all, yaml_output_t};

/// Writes the text and finishes; returns how many of its bytes the output took where it failed.
pub fn yaml_write_all<O: yaml_output_t>(output: &mut O, text: &[u8]) -> Result<(), u64>
    ensures ok { OnOk result (Appends (O.received output.old) (O.received output.new) text.now) }
    ensures sound { OnOk result (O.has_failed output.new ≡ O.has_failed output.old) }
    ensures finished { OnOk result (O.is_finished output.new ≡ true) }
    ensures unfinished { OnErr result (O.is_finished output.new ≡ false) }
    ensures failed { IfErr result (λ _. O.has_failed output.new ≡ true) }
    ensures within { IfErr result (λ written. written ≤ length text.now) }
    ensures front { IfErr result (λ written. Appends (O.received output.old) (O.received output.new)
        (take written text.now)) }
{
    match put_all(output, text) {
        Err(written) => Err(written),
        Ok(()) => {
            let finished = output.finish();
            match finished {
                Ok(()) => Ok(()),
                Err(_) => Err(text.len() as u64),
            }
        }
    }
}
