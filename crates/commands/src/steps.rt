// The number of events that the caller of `run` asks for.

ghost use Rattle.std.specs.Prelude.{SomeIff};
ghost use Rattle.std.specs.Str.Parse.{digits_value};
ghost use Rattle.commands.specs.Steps.{IsSteps};

/// The number of events that a text gives, 0 to 4,294,967,295: one decimal digit or more, leading zeros allowed. None
/// for any other text (docs/PROGRAM.md).
pub fn steps_of(text: &str) -> Option<u32>
    ensures { SomeIff result (IsSteps text.now) (digits_value 10 text.now) }
{
    match text.as_bytes() {
        [b'+', ..] => None,
        _ => text.parse::<u32>().ok(),
    }
}
