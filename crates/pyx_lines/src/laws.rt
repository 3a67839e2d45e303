// Laws of the notation, each a function that does nothing.
ghost use Rattle.std.specs.Prelude.{◌≡◌, ◌≢◌, ◌↔◌, ◌∷◌, ◌++◌, ℕ, List, Ok, Err, IsTrue};
ghost use Rattle.std.specs.List.{flat_map};
ghost use Rattle.std.specs.Str.{is_utf8};
ghost use Rattle.pyx_lines.specs.Spelling.{Spells, IsRefused, line_of};
ghost use Rattle.pyx_lines.specs.declared.line.Line.{Line};
ghost use Rattle.pyx_lines.specs.declared.line.Line.TheVariants.{Passed};
ghost use Rattle.pyx_lines.specs.Lines.{lines_of, judged_lines};
ghost use Rattle.pyx_lines.specs.ReadingBack.{AllWritable, Reads};
ghost use Rattle.pyx_lines.specs.Writing.{CanBeWritten, body_of, written};
ghost use Rattle.pyx_lines.specs.declared.line_error.LineError.{LineError};

/// A line is read exactly where the bytes are UTF-8 and the notation spells it.
pub fn what_is_read_is_spelled()
    ensures { (bytes : List ℕ) (line : Line) → ((line_of bytes ≡ Ok line) ↔ (IsTrue (is_utf8 bytes) × Spells bytes line)) }
{}

/// A line is refused exactly where the bytes are: NotUtf8 first, then UnknownLine, NoSpace and BadName.
pub fn refusals_come_in_their_order()
    ensures { (bytes : List ℕ) (error : LineError) → ((line_of bytes ≡ Err error) ↔ IsRefused error bytes) }
{}

/// What is written reads back: whatever stands after it, it is one line, which ends at its line feed, and
/// without one carriage return at its end it spells the line that was written.
pub fn what_is_written_reads_back()
    ensures { (line : Line) (more : List ℕ) → CanBeWritten line →
        (lines_of (written line ++ more) ≡ body_of line ∷ lines_of more) × (line_of (body_of line) ≡ Ok line) }
{}

/// What is read, unless it is passed over, can be written: its names, values and texts are UTF-8.
pub fn what_is_read_can_be_written()
    ensures { (bytes : List ℕ) (line : Line) → line_of bytes ≡ Ok line → line ≢ Passed → CanBeWritten line }
{}

/// Lines that are written one after the other are read one by one, each as itself, or refused as a long line
/// or as one line too many.
pub fn written_lines_read_back_one_by_one()
    ensures { (lines : List Line) → AllWritable lines → Reads lines (judged_lines (flat_map written lines)) }
{}
