// A profile's text read line by line, where it lies in the lent bytes, which are never copied.
#![tactic(auto)]

ghost use Rattle.std.specs.Prelude.{◌≡◌};
ghost use Rattle.reader.specs.Lines.{line_from};

// The line that begins at a place of a text, without its LF, and empty where the place is past the end. The rest of the library reads by this alone.
pub fn line_from(text: &[u8], at: usize) -> &[u8]
    ensures { result.now ≡ line_from text.now at }
{
    let at = at.min(text.len());
    let end = text::find_far(text, at, b'\n');
    &text[at..end]
}
