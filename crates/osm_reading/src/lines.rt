//! The lines of a text, such as an OPL file, a script or a state file.

ghost use Rattle.std.specs.Prelude.{◌≡◌, ◌∷◌, ◌<◌, length, IfSome};
ghost use Rattle.osm_reading.specs.Lines.{BeginsWithLine, is_skipped, lines_after, lines_of};
ghost use Rattle.osm_reading.specs.Lines.{without_cr};

use crate::pieces::cut;

/// Cuts off the first line: the line without its line end, LF or CR LF, and the bytes after its LF,
/// if it has one.
pub fn split_line(bytes: &[u8]) -> (&[u8], Option<&[u8]>)
    ensures lines { lines_of bytes.now ≡ result.0.now ∷ lines_after result.1 }
    ensures rest { IfSome result.1 (λ rest. BeginsWithLine bytes.now result.0.now rest.now) }
    ensures shorter { IfSome result.1 (λ rest. length rest.now < length bytes.now) }
{
    let (line, rest) = cut(bytes, b'\n');
    (trim_end(line), rest)
}

#[tactic(auto, using(crate::proofs::PieceLemmas::line_ends))]
fn trim_end(line: &[u8]) -> &[u8]
    ensures { result.now ≡ without_cr line.now }
{
    let Some((last, prefix)) = line.split_last() else {
        return line;
    };
    if *last == b'\r' { prefix } else { line }
}

/// Whether readers skip a line: the line is empty or begins with `#` (our choice).
pub fn is_skipped_line(line: &[u8]) -> bool
    ensures { result ≡ is_skipped line.now }
{
    match line.first() {
        None => true,
        Some(first) => *first == b'#',
    }
}
