// What the program is asked for.

ghost use Rattle.std.specs.Prelude.{◌≤◌, IfOk};

/// How many objects may stay on the heap. It makes 65,535: the cell whose object is gone has one of them, and the
/// thread that allocates one at least.
const MOST_OBJECTS: u32 = 65_533;

/// What the words behind the program's name ask for: figures or counts, for how many milliseconds each way of reading
/// is tried, by how many threads, and how many objects stay on the heap.
#[derive(Clone, Copy)]
pub(crate) struct Command {
    pub(crate) timed: bool,
    pub(crate) millis: u32,
    pub(crate) readers: u8,
    pub(crate) objects: u32,
}

/// What is wrong with the words.
#[derive(Clone, Copy, PartialEq, Eq)]
pub(crate) enum Mistake {
    Words,
    Mode,
    Millis,
    Readers,
    Objects,
}

/// How the program is called.
pub(crate) const USAGE: &'static str = "usage: weak_reads count|time MILLIS READERS OBJECTS
  count    prints what is left on the heaps after a race, time what a read took
  MILLIS   how long each of the five races takes, in milliseconds
  READERS  how many threads read, 1 to 8
  OBJECTS  how many objects stay on the managed heap, 1 to 65533
example: weak_reads count 20 2 300";

impl Mistake {
    /// In words.
    pub(crate) fn what(self) -> &'static str {
        match self {
            Mistake::Words => "there are to be four words",
            Mistake::Mode => "the first word is neither count nor time",
            Mistake::Millis => "MILLIS is no number up to 4294967295",
            Mistake::Readers => "READERS is no number from 1 to 8",
            Mistake::Objects => "OBJECTS is no number from 1 to 65533",
        }
    }
}

/// The command of four words: `count` or `time`, a number of milliseconds, one of readers from 1 to 8, and one of
/// objects from 1 to 65,533. Of words that aren't, the first mistake.
pub(crate) fn command_of(words: &[String]) -> Result<Command, Mistake>
    ensures readers { IfOk result (λ c. (1 ≤ c.readers) × (c.readers ≤ 8)) }
    ensures objects { IfOk result (λ c. (1 ≤ c.objects) × (c.objects ≤ 65533)) }
{
    let [mode, millis, readers, objects] = words else {
        return Err(Mistake::Words);
    };
    let timed = match mode.as_str() {
        "count" => false,
        "time" => true,
        _ => return Err(Mistake::Mode),
    };
    let millis: u32 = millis.as_str().parse().ok().ok_or(Mistake::Millis)?;
    let readers: u8 = readers.as_str().parse().ok().ok_or(Mistake::Readers)?;
    if readers < 1 || 8 < readers {
        return Err(Mistake::Readers);
    }
    let objects: u32 = objects.as_str().parse().ok().ok_or(Mistake::Objects)?;
    if objects < 1 || MOST_OBJECTS < objects {
        return Err(Mistake::Objects);
    }
    Ok(Command {
        timed,
        millis,
        readers,
        objects,
    })
}
