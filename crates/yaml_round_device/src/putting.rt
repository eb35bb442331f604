//! The writing of a text to an output.

ghost use Rattle.std.specs.Prelude.{◌≡◌, ◌≤◌, length, take, true, false, IfErr, OnOk, OnErr};
ghost use Rattle.std.specs.Io.KnownBytes.{Appends};

use crate::device::yaml_output_t;

/// Writes the text; returns how many of its bytes the output took where it failed.
pub fn put_all<O: yaml_output_t>(output: &mut O, text: &[u8]) -> Result<(), u64>
    ensures ok { OnOk result (Appends (O.received output.old) (O.received output.new) text.now) }
    ensures sound { OnOk result (O.has_failed output.new ≡ O.has_failed output.old) }
    ensures unfinished { OnErr result (O.is_finished output.new ≡ false) }
    ensures failed { OnErr result (O.has_failed output.new ≡ true) }
    ensures within { IfErr result (λ written. written ≤ length text.now) }
    ensures front { IfErr result (λ written. Appends (O.received output.old) (O.received output.new)
        (take written text.now)) }
{
    let mut written = 0;
    while written < text.len() {
        match output.put(&text[written..]) {
            Ok(count) => written += count,
            Err(_) => return Err(written as u64),
        }
    }
    Ok(())
}
