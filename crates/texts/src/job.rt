// Reading the line that asks for the plan of a job.
ghost use Rattle.std.specs.Prelude.{◌≡◌, ◌<◌, ◌==◌};
ghost use Rattle.std.specs.List.{position};
ghost use Rattle.texts.specs.Jobs.{job_plan, Reads, JobFirst, KindFirst, NumberFirst, NumberRead};

use fields::refusal::Refusal;
use stages::plan::{Kind, Plan};
use tables::size::Sizes;

// What a line asks for, its numbers as written.
#[derive(Clone, Copy, PartialEq, Eq, Debug)]
pub struct Job {
    pub kind: Kind,
    pub d: usize,
    pub c: usize,
    pub t: usize,
}

// The digits of a number in a line.
const MOST_DIGITS: usize = 4;

// The bytes of the longest line: the name of a kind, three numbers, and a byte after each of the four.
const LONGEST_LINE: usize = 21;

// The number that at most MOST_DIGITS digits write, without a leading zero.
fn short_number(digits: &[u8]) -> Option<usize>
    ensures { NumberRead digits.now result }
{
    // What the library would take, and the format does not.
    if digits.len() > 1 && digits[0] == b'0' {
        return None;
    }
    if digits.starts_with(b"+") || digits.len() > MOST_DIGITS {
        return None;
    }
    str::from_utf8(digits).ok()?.parse().ok()
}

// Where the byte first stands.
fn first_index(bytes: &[u8], byte: u8) -> Option<usize>
    ensures { result ≡ position (λ b. b == byte) bytes.now }
{
    bytes.iter().position(|b| *b == byte)
}

// A number of at most MOST_DIGITS digits without a leading zero, then the byte `end`: the number and the rest.
fn number(bytes: &[u8], end: u8) -> Option<(usize, &[u8])>
    requires { end < 48 }
    ensures { NumberFirst bytes.now end result }
{
    let count = first_index(bytes, end)?;
    let number = short_number(&bytes[..count])?;
    Some((number, &bytes[count + 1..]))
}

// The name of a kind, then a tab: the kind and the rest. Two names are two lines; a table of them would need a search beside it.
fn kind(bytes: &[u8]) -> Option<(Kind, &[u8])>
    ensures { KindFirst bytes.now result }
{
    if let Some(rest) = bytes.strip_prefix(b"shout\t") {
        return Some((Kind::Shout, rest));
    }
    let rest = bytes.strip_prefix(b"twist\t")?;
    Some((Kind::Twist, rest))
}

fn first_job(input: &[u8]) -> Option<Job>
    ensures { JobFirst input.now result }
{
    let (kind, rest) = kind(input)?;
    let (d, rest) = number(rest, b'\t')?;
    let (c, rest) = number(rest, b'\t')?;
    let (t, _) = number(rest, b'\n')?;
    Some(Job { kind, d, c, t })
}

// The job whose line the input begins with. No line is longer than the longest, so nothing past that is looked at.
pub fn read_job(input: &[u8]) -> Result<Job, Refusal>
    ensures { Reads input.now result }
{
    let front = &input[..input.len().min(LONGEST_LINE)];
    first_job(front).ok_or(Refusal::MalformedLine)
}

// The plan that a job asks for, or the refusal of its sizes.
impl TryFrom<Job> for Plan {
    type Error = Refusal;

    ghost try_from_gives = { λ job plan. plan ≡ job_plan job };

    fn try_from(job: Job) -> Result<Plan, Refusal> {
        Ok(Plan {
            kind: job.kind,
            sizes: Sizes::new(job.d, job.c, job.t)?,
        })
    }
}
