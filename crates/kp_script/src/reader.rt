//! Lines of a reader, one after another.

ghost use Rattle.std.specs.Prelude.{◌≡◌, ◌+◌, ◌<◌, ◌≤◌, ◌^◌, ◌++◌, ℕ, List, [], ◌∷◌, Some, None, length, IfOk, IfErr, IfSome, OnErr, Ok};
ghost use Rattle.std.specs.Io.KnownBytes.{IsAtEnd, Keeps};
ghost use Rattle.kp_types.specs.declared.refusal.Refusal.TheVariants.{Device as DeviceFault};
ghost use Rattle.kp_types.specs.Devices.{CountsFaults, IsDeviceFault};
ghost use Rattle.kp_words.specs.Words.{Lacks};
ghost use Rattle.kp_script.specs.declared.reader.Next.TheVariants.{Nothing, Torn, Whole};
ghost use Rattle.kp_script.specs.Reads.{Gives, Reads, ReadsInto, kept_of, read_faults, reader_of};

use crate::lines::LONGEST_LINE;
use kp_types::Refusal;
use kp_words::split_first_at;
use std::alloc::Global;
use std::io::{self, BufRead, ErrorKind};

/// How many bytes of a line are kept at most: one more than a line may have, so a line that is too long is known by it.
const KEPT: usize = LONGEST_LINE + 1;

/// What a reader gave of a line.
#[derive(Clone, Copy)]
enum Piece {
    /// Some bytes of it, or none.
    Part,
    /// Its last bytes, and its line feed.
    Last,
    /// Nothing: no byte is left.
    End,
}

/// What a reader's next line is.
#[derive(Clone, Copy)]
pub(crate) enum Next {
    /// A line with its line feed.
    Whole,
    /// A last one that lacks it.
    Torn,
    /// No line: no byte is left.
    Nothing,
}

/// Lines of a reader, one after another, with the count of the reader's calls that failed. A line ends with a line feed, or where the
/// reader ends; of one that is longer than [`LONGEST_LINE`] a byte more than that is kept, so the memory that it takes is bounded.
#[derive(Drop)]
pub struct LineReader<R> {
    inner: R,
    failed: u64,
    line: Vec<u8>,
}

/// The refusal that an error of the reader is, or none where it is to be asked again.
fn refusal_of(error: &io::Error) -> Option<Refusal>
    ensures { IfSome result IsDeviceFault }
{
    match error.kind() {
        ErrorKind::Interrupted => None,
        ErrorKind::OutOfMemory => Some(Refusal::Memory),
        _ => Some(Refusal::Device),
    }
}

/// Takes what the reader has at hand of a line, and puts it behind the bytes that are kept of it.
fn take_piece<R: BufRead>(reader: &mut R, line: &mut Vec<u8>) -> Result<Piece, Refusal>
    requires { length line.old.items ≤ 2100001 }
    ensures given { IfOk result (λ piece. (part : List ℕ) × Lacks 10 part
        × Gives piece (R.remaining reader.old) (R.remaining reader.new) part
        × (line.new.items ≡ kept_of (line.old.items ++ part))) }
    ensures err { OnErr result (Keeps (R.remaining reader.old) (R.remaining reader.new)) }
    ensures only { IfErr result IsDeviceFault }
{
    let shown = match reader.fill_buf() {
        Ok(shown) => shown,
        Err(error) => {
            return match refusal_of(&error) {
                Some(refusal) => Err(refusal),
                None => Ok(Piece::Part),
            };
        }
    };
    let (part, used, piece) = match split_first_at(b'\n', shown) {
        Some((part, _)) => (part, part.len() + 1, Piece::Last),
        None if shown.is_empty() => (shown, 0, Piece::End),
        None => (shown, shown.len(), Piece::Part),
    };
    let room = part.len().min(KEPT - line.len());
    line.extend_from_slice(&part[..room])?;
    reader.consume(used);
    Ok(piece)
}

impl<R: BufRead> LineReader<R> {
    // One more call has failed.
    fn fail(&mut self) -> Refusal
        requires { read_faults self.old + 1 < 2 ^ 64 }
        ensures device { result ≡ DeviceFault }
        ensures reader { reader_of self.new ≡ reader_of self.old }
        ensures faults { read_faults self.new ≡ read_faults self.old + 1 }
    {
        self.failed += 1;
        Refusal::Device
    }

    /// The lines of a reader, none of whose calls has failed yet. No memory is taken before the first line.
    pub fn new(alloc: Global, inner: R) -> LineReader<R>
        ensures reader { reader_of result ≡ inner }
        ensures faults { read_faults result ≡ 0 }
    {
        LineReader {
            inner,
            failed: 0,
            line: Vec::new(alloc),
        }
    }

    /// Reads the next line, and answers whether it has its line feed, lacks it, or isn't there. F32 where the reader failed, and the count rises by one; F33 where
    /// memory was refused; a beginning of the line has been read then. Reads that were interrupted are tried again. O(n) in the line,
    /// and memory for at most [`LONGEST_LINE`] + 1 bytes.
    pub(crate) fn next_line(&mut self) -> Result<Next, Refusal>
        requires { read_faults self.old + 1 < 2 ^ 64 }
        ensures found { result ≡ Ok Whole → (line : List ℕ) × (self.new.line.items ≡ kept_of line)
            × Reads (R.remaining (reader_of self.old)) (R.remaining (reader_of self.new)) (Some line ∷ []) }
        ensures torn { result ≡ Ok Torn → Reads (R.remaining (reader_of self.old)) (R.remaining (reader_of self.new)) (None ∷ []) }
        ensures end { result ≡ Ok Nothing → IsAtEnd (R.remaining (reader_of self.old)) }
        ensures rest { result ≡ Ok Nothing → Reads (R.remaining (reader_of self.old)) (R.remaining (reader_of self.new)) [] }
        ensures begun { OnErr result (ReadsInto (R.remaining (reader_of self.old)) (R.remaining (reader_of self.new)) []) }
        ensures only { IfErr result IsDeviceFault }
        ensures counted { CountsFaults result (read_faults self.old) (read_faults self.new) }
    {
        self.line.clear();
        for _ in 0..u64::MAX {
            match take_piece(&mut self.inner, &mut self.line) {
                Ok(Piece::Part) => {}
                Ok(Piece::Last) => return Ok(Next::Whole),
                Ok(Piece::End) if self.line.is_empty() => return Ok(Next::Nothing),
                Ok(Piece::End) => return Ok(Next::Torn),
                Err(Refusal::Memory) => return Err(Refusal::Memory),
                Err(_) => return Err(self.fail()),
            }
        }
        Err(self.fail())
    }

    /// What is kept of the line that was read last.
    pub(crate) fn line(&self) -> &[u8]
        ensures { result.now ≡ self.now.line.items }
    {
        self.line.as_slice()
    }
}
