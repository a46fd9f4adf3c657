// Reading an input, and the parts of a case.
ghost use Rattle.std.specs.Prelude.{◌≡◌, ◌+◌, ◌*◌, ◌/◌, ◌%◌, ◌<◌, ◌≤◌, [], ◌∷◌, length, slice_index, take, Err, IfOk, IfSome, OnOk, OnErr};
ghost use Rattle.std.specs.Io.KnownBytes.{Consumes, IsAtEnd};
ghost use Rattle.harness.specs.Stop.{stopped};

use std::io;
use std::io::Read;

// Why no case follows: the cases are over, or a read or a write failed.
#[derive(Debug, Drop)]
pub enum Stop {
    Over,
    Failed(io::Error),
}

impl From<io::Error> for Stop {
    ghost use Rattle.harness.specs.declared.input.Stop.TheVariants.{Failed};

    ghost from_gives = { λ error stop. stop ≡ Failed error };

    fn from(error: io::Error) -> Stop {
        Stop::Failed(error)
    }
}

impl Stop {
    // What a program answers that stops so: all is well where the cases are over, and else the error.
    pub fn answer(self) -> io::Result<()>
        ensures { result ≡ stopped self }
    {
        match self {
            Stop::Over => Ok(()),
            Stop::Failed(error) => Err(error),
        }
    }
}

// Fills the buffer from the input, up to its end, and answers how many bytes that are, or the input's error, which leaves the buffer its length.
pub fn read_full<R: Read>(input: &mut R, buffer: &mut [u8]) -> io::Result<usize>
    ensures ok { IfOk result (λ n. n ≤ length buffer.new) }
    ensures err { OnErr result (length buffer.new ≡ length buffer.old) }
    ensures bytes { IfOk result (λ n. Consumes (R.remaining input.old) (R.remaining input.new) (take n buffer.new)) }
    ensures end { IfOk result (λ n. n < length buffer.new → IsAtEnd (R.remaining input.new)) }
{
    let mut count = 0;
    // each read but the last gives a byte at least
    for _ in 0..buffer.len() {
        let more = input.read(&mut buffer[count..])?;
        count += more;
        if more == 0 || count == buffer.len() {
            break;
        }
    }
    Ok(count)
}

// Fills the whole buffer from the input. Where the input ends before, the cases are over.
pub fn fill<R: Read>(input: &mut R, buffer: &mut [u8]) -> Result<(), Stop>
    ensures long { length buffer.new ≡ length buffer.old }
    ensures bytes { OnOk result (Consumes (R.remaining input.old) (R.remaining input.new) buffer.new) }
    ensures over { result ≡ Err Stop.Over → IsAtEnd (R.remaining input.new) }
    ensures short { result ≡ Err Stop.Over → IfSome (R.remaining input.old) (λ bytes. length bytes < length buffer.old) }
{
    if read_full(input, buffer)? < buffer.len() {
        return Err(Stop::Over);
    }
    Ok(())
}

// The next bytes of the input, as many as the caller's array has. Where the input ends before, the cases are over.
pub fn record<R: Read, const N: usize>(input: &mut R) -> Result<[u8; N], Stop>
    ensures bytes { IfOk result (λ bytes. Consumes (R.remaining input.old) (R.remaining input.new) bytes) }
    ensures over { result ≡ Err Stop.Over → IsAtEnd (R.remaining input.new) }
    ensures short { result ≡ Err Stop.Over → IfSome (R.remaining input.old) (λ bytes. length bytes < N) }
{
    let mut bytes = [0; N];
    fill(input, &mut bytes)?;
    Ok(bytes)
}

// The next byte of the input. Where it has ended, the cases are over.
pub fn byte<R: Read>(input: &mut R) -> Result<u8, Stop>
    ensures byte { IfOk result (λ byte. Consumes (R.remaining input.old) (R.remaining input.new) (byte ∷ [])) }
    ensures over { result ≡ Err Stop.Over → IsAtEnd (R.remaining input.new) }
    ensures short { result ≡ Err Stop.Over → IsAtEnd (R.remaining input.old) }
{
    let [byte]: [u8; 1] = record(input)?;
    Ok(byte)
}

// The next bytes of the input, as many as the two bytes before them say, low byte first, in the front of a buffer. Where the input ends before, the cases are over.
pub fn part<'b, R: Read>(input: &mut R, buffer: &'b mut [u8; 65535]) -> Result<&'b [u8], Stop>
    ensures part { IfOk result (λ part. Consumes (R.remaining input.old) (R.remaining input.new)
        (length part.now % 256 ∷ length part.now / 256 ∷ part.now)) }
    ensures over { result ≡ Err Stop.Over → IsAtEnd (R.remaining input.new) }
    ensures short { result ≡ Err Stop.Over → IfSome (R.remaining input.old)
        (λ bytes. length bytes < 2 + slice_index bytes 0 + 256 * slice_index bytes 1) }
{
    let length = u16::from_le_bytes(record(input)?);
    let part = &mut buffer[..usize::from(length)];
    fill(input, part)?;
    Ok(part)
}
