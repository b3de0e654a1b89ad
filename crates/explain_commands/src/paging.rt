// `galcert explain NUMBER`.

ghost use Rattle.std.specs.Prelude.{◌≡◌, ◌≢◌};
ghost use Rattle.texts.specs.Device.{HasFailed, CountsNoFailure};

use command_parts::ExitStatus;
use explanation_parts::page;
use texts::{DeviceFault, Sink, put};

/// The number that a word asks the page of: one or two digits. A file of such a name is `./12`.
pub fn page_number(word: &str) -> Option<u8> {
    let is_number = word.len() <= 2 && word.bytes().all(|byte| byte.is_ascii_digit());
    if is_number { word.parse().ok() } else { None }
}

/// `galcert explain NUMBER`: writes the page of a reason. The result is the exit status: 0 written, 2 no reason has
/// this number, 3 the device failed.
pub fn page_on<W: Sink>(number: u8, out: &mut W) -> u8
    ensures device { result ≡ 3 → HasFailed (W.state out.old) (W.state out.new) }
    ensures told { result ≢ 3 → CountsNoFailure (W.state out.old) (W.state out.new) }
{
    let Some(text) = page(number) else {
        return ExitStatus::Usage.code();
    };
    match put(out, text.as_bytes()) {
        Ok(()) => ExitStatus::Done.code(),
        Err(DeviceFault) => ExitStatus::Device.code(),
    }
}
