// Options among the words behind a command. A word that begins with `--` is an option, and the word behind it is its
// value; every other word is plain.
#![tactic(auto)]

ghost use Rattle.std.specs.Prelude.{◌≡◌, map, string_bytes};
ghost use Rattle.options.specs.Options.{flag_of_text, flag_text, given_by, has, host_options_of, layers_of_text, next_flag_of, option_test, plain_place_of, steps_of, takes, with_value_of};

use std::str::FromStr;
use text::parse_number;

// The most steps that can be asked for.
const MOST_STEPS: u32 = 1048576;

// The commands that have options.
#[derive(Clone, Copy, PartialEq, Eq, Debug)]
pub enum Command {
    Host,
    Plan,
    Run,
}

// The options that there are.
#[derive(Clone, Copy, PartialEq, Eq, Debug)]
pub enum Flag {
    Instances,
    Bindings,
    Delay,
    Layers,
    Room,
    Out,
    Script,
    Steps,
}

// The layers above a cloud.
#[derive(Clone, Copy, PartialEq, Eq, Debug)]
pub enum Layers {
    None,
    Verifying,
    VerifyingTwice,
}

// The values of the options that are given; of a path, the place of its word from 0.
#[derive(Clone, Copy, PartialEq, Eq, Debug, Default)]
pub struct Given {
    pub instances: Option<u32>,
    pub bindings: Option<u32>,
    pub delay: Option<u32>,
    pub layers: Option<Layers>,
    pub room: Option<u32>,
    pub out: Option<usize>,
    pub script: Option<usize>,
    pub steps: Option<u32>,
}

// What a host is made from.
#[derive(Clone, Copy, PartialEq, Eq, Debug)]
pub struct HostOptions {
    pub instances: u32,
    pub bindings: u32,
    pub delay: u32,
    pub layers: Layers,
}

// Why the words cannot be used.
#[derive(Clone, Copy, PartialEq, Eq, Debug)]
pub enum Reason {
    // The command has no such option.
    Unknown,
    // The option has a value already.
    Twice(Flag),
    // No word is behind the option.
    NoValue(Flag),
    // The value is no number up to 4294967295, of steps none up to 1048576, or of layers none of the words for them.
    BadValue(Flag),
}

// A word that cannot be used, by its place from 0, and why; a missing word is behind the last.
#[derive(Clone, Copy, PartialEq, Eq, Debug)]
pub struct Fault {
    pub place: usize,
    pub reason: Reason,
}

impl Flag {
    // The word of the option.
    pub fn as_str(self) -> &'static str
        ensures { result.now ≡ flag_text self }
    {
        match self {
            Flag::Instances => "--instances",
            Flag::Bindings => "--bindings",
            Flag::Delay => "--delay",
            Flag::Layers => "--layers",
            Flag::Room => "--room",
            Flag::Out => "--out",
            Flag::Script => "--script",
            Flag::Steps => "--steps",
        }
    }
}

impl Command {
    // The command has the option.
    fn takes(self, flag: Flag) -> bool
        ensures { result ≡ takes self flag }
    {
        match flag {
            Flag::Instances | Flag::Bindings | Flag::Delay | Flag::Layers => {
                self == Command::Host || self == Command::Run
            }
            Flag::Room | Flag::Out => self == Command::Plan,
            Flag::Script | Flag::Steps => self == Command::Run,
        }
    }
}

// The option of a word.
impl FromStr for Flag {
    type Err = Reason;

    ghost from_str_gives = { λ word flag. flag ≡ flag_of_text word };

    fn from_str(word: &str) -> Result<Flag, Reason> {
        match word {
            "--instances" => Ok(Flag::Instances),
            "--bindings" => Ok(Flag::Bindings),
            "--delay" => Ok(Flag::Delay),
            "--layers" => Ok(Flag::Layers),
            "--room" => Ok(Flag::Room),
            "--out" => Ok(Flag::Out),
            "--script" => Ok(Flag::Script),
            "--steps" => Ok(Flag::Steps),
            _ => Err(Reason::Unknown),
        }
    }
}

// The layers of a word, from the bottom up.
impl FromStr for Layers {
    type Err = Reason;

    ghost from_str_gives = { λ word layers. layers ≡ layers_of_text word };

    fn from_str(word: &str) -> Result<Layers, Reason> {
        match word {
            "" => Ok(Layers::None),
            "v" => Ok(Layers::Verifying),
            "vv" => Ok(Layers::VerifyingTwice),
            _ => Err(Reason::BadValue(Flag::Layers)),
        }
    }
}

// The word begins with two dashes.
fn is_option(word: &str) -> bool
    ensures { result ≡ option_test word.now }
{
    word.starts_with("--")
}

// The number of steps of a word.
fn parse_steps(word: &str) -> Option<u32>
    ensures { result ≡ steps_of word.now }
{
    parse_number(word.as_bytes()).filter(|steps| *steps <= MOST_STEPS)
}

impl Given {
    // The option has a value.
    fn has(self, flag: Flag) -> bool
        ensures { result ≡ has self flag }
    {
        match flag {
            Flag::Instances => self.instances.is_some(),
            Flag::Bindings => self.bindings.is_some(),
            Flag::Delay => self.delay.is_some(),
            Flag::Layers => self.layers.is_some(),
            Flag::Room => self.room.is_some(),
            Flag::Out => self.out.is_some(),
            Flag::Script => self.script.is_some(),
            Flag::Steps => self.steps.is_some(),
        }
    }

    // The option of a word, if the command has it and it has no value yet.
    fn next_flag(self, command: Command, word: &str) -> Result<Flag, Reason>
        ensures { result ≡ next_flag_of command self word.now }
    {
        let flag = word.parse()?;
        if !command.takes(flag) {
            return Err(Reason::Unknown);
        }
        if self.has(flag) {
            return Err(Reason::Twice(flag));
        }
        Ok(flag)
    }

    // The values with that of the option, which the word at the place writes.
    fn with_value(self, flag: Flag, place: usize, word: &str) -> Result<Given, Reason>
        ensures { result ≡ with_value_of self flag place word.now }
    {
        let number = || parse_number(word.as_bytes()).ok_or(Reason::BadValue(flag));
        let mut given = self;
        match flag {
            Flag::Instances => given.instances = Some(number()?),
            Flag::Bindings => given.bindings = Some(number()?),
            Flag::Delay => given.delay = Some(number()?),
            Flag::Layers => given.layers = Some(word.parse()?),
            Flag::Room => given.room = Some(number()?),
            Flag::Out => given.out = Some(place),
            Flag::Script => given.script = Some(place),
            Flag::Steps => given.steps = Some(parse_steps(word).ok_or(Reason::BadValue(flag))?),
        }
        Ok(given)
    }

    // The options of a host, with the usual values for those that are not given.
    pub fn host_options(self) -> HostOptions
        ensures { result ≡ host_options_of self }
    {
        HostOptions {
            instances: self.instances.unwrap_or(256),
            bindings: self.bindings.unwrap_or(2048),
            delay: self.delay.unwrap_or(0),
            layers: self.layers.unwrap_or(Layers::None),
        }
    }
}

// The values of the command's options among the words, or the first word that cannot be used.
pub fn parse_options(command: Command, words: &[String]) -> Result<Given, Fault>
    ensures { result ≡ given_by command (map string_bytes words.now) }
{
    let mut given = Given::default();
    let mut words = words.iter().enumerate();
    while let Some((place, word)) = words.next() {
        if is_option(word.as_str()) {
            let flag = given
                .next_flag(command, word.as_str())
                .map_err(|reason| Fault { place, reason })?;
            let Some((place, value)) = words.next() else {
                return Err(Fault {
                    place: place + 1,
                    reason: Reason::NoValue(flag),
                });
            };
            given = given
                .with_value(flag, place, value.as_str())
                .map_err(|reason| Fault { place, reason })?;
        }
    }
    Ok(given)
}

// The place of the plain word that has so many plain words before it.
pub fn plain_place(words: &[String], nth: usize) -> Option<usize>
    ensures { result ≡ plain_place_of nth (map string_bytes words.now) }
{
    // Counted here: a `filter` with `nth` would have to carry from word to word whether the next is a value, and is no
    // plainer.
    let mut left = nth;
    let mut words = words.iter().enumerate();
    while let Some((place, word)) = words.next() {
        if is_option(word.as_str()) {
            // The value behind it.
            words.next();
        } else if left == 0 {
            return Some(place);
        } else {
            left -= 1;
        }
    }
    None
}

#[cfg(test)]
mod tests {
    use super::*;
    use std::test::*;

    // The words of a text, which has a blank between any two.
    fn words(rt: &HostRuntime, text: &str) -> Result<Vec<String>, Fail> {
        let mut words = Vec::new(rt.alloc());
        for word in text.split(' ') {
            words.push(String::from_str(rt.alloc(), word)?)?;
        }
        Ok(words)
    }

    fn options(rt: &HostRuntime, text: &str) -> Result<Result<HostOptions, Fault>, Fail> {
        let words = words(rt, text)?;
        Ok(parse_options(Command::Host, words.as_slice()).map(Given::host_options))
    }

    fn host(
        instances: u32,
        bindings: u32,
        delay: u32,
        layers: Layers,
    ) -> Result<HostOptions, Fault> {
        Ok(HostOptions {
            instances,
            bindings,
            delay,
            layers,
        })
    }

    fn fault(place: usize, reason: Reason) -> Result<HostOptions, Fault> {
        Err(Fault { place, reason })
    }

    // The place of the first case that is answered otherwise, or none.
    fn first_wrong(
        rt: &HostRuntime,
        cases: &[(&str, Result<HostOptions, Fault>)],
    ) -> Result<Option<usize>, Fail> {
        for (place, (text, expected)) in cases.iter().enumerate() {
            if options(rt, text)? != *expected {
                return Ok(Some(place));
            }
        }
        Ok(None)
    }

    #[test]
    fn values(rt: HostRuntime) -> Result<(), Fail> {
        let wrong = first_wrong(
            &rt,
            &[
                ("a b", host(256, 2048, 0, Layers::None)),
                ("a --delay 8 b", host(256, 2048, 8, Layers::None)),
                (
                    "--layers vv a --instances 0 b --bindings 0007",
                    host(0, 7, 0, Layers::VerifyingTwice),
                ),
                ("a --layers v", host(256, 2048, 0, Layers::Verifying)),
                ("a --layers ", host(256, 2048, 0, Layers::None)),
                (
                    "--instances 4294967295",
                    host(4294967295, 2048, 0, Layers::None),
                ),
                ("- -a -delay", host(256, 2048, 0, Layers::None)),
            ],
        )?;
        assert_eq!(rt; wrong, None);
        Ok(())
    }

    #[test]
    fn faults(rt: HostRuntime) -> Result<(), Fail> {
        let wrong = first_wrong(
            &rt,
            &[
                ("a --steps 3", fault(1, Reason::Unknown)),
                ("a --script b", fault(1, Reason::Unknown)),
                ("--", fault(0, Reason::Unknown)),
                ("--Delay 3", fault(0, Reason::Unknown)),
                ("--delay=3", fault(0, Reason::Unknown)),
                (
                    "--delay 1 a --delay 1",
                    fault(3, Reason::Twice(Flag::Delay)),
                ),
                ("a b --layers", fault(3, Reason::NoValue(Flag::Layers))),
                (
                    "--bindings 4294967296",
                    fault(1, Reason::BadValue(Flag::Bindings)),
                ),
                ("--bindings +1", fault(1, Reason::BadValue(Flag::Bindings))),
                ("--delay ", fault(1, Reason::BadValue(Flag::Delay))),
                ("--delay --delay", fault(1, Reason::BadValue(Flag::Delay))),
                ("--layers vvv", fault(1, Reason::BadValue(Flag::Layers))),
                ("--layers V", fault(1, Reason::BadValue(Flag::Layers))),
            ],
        )?;
        assert_eq!(rt; wrong, None);
        Ok(())
    }

    #[test]
    fn plan_options(rt: HostRuntime) -> Result<(), Fail> {
        let given = words(&rt, "a --out b --room 11 c")?;
        let parsed = parse_options(Command::Plan, given.as_slice());
        assert_eq!(rt;
            parsed.map(|given| (given.room, given.out)),
            Ok((Some(11), Some(2)))
        );
        let unknown = Fault {
            place: 1,
            reason: Reason::Unknown,
        };
        for text in ["a --delay 8", "a --layers v", "a --Room 8", "a --steps 3"] {
            let given = words(&rt, text)?;
            assert_eq!(rt;
                parse_options(Command::Plan, given.as_slice()),
                Err(unknown)
            );
        }
        let given = words(&rt, "a --room 8")?;
        assert_eq!(rt;
            parse_options(Command::Host, given.as_slice()),
            Err(unknown)
        );
        let given = words(&rt, "--out a --out b")?;
        let twice = Fault {
            place: 2,
            reason: Reason::Twice(Flag::Out),
        };
        assert_eq!(rt; parse_options(Command::Plan, given.as_slice()), Err(twice));
        Ok(())
    }

    #[test]
    fn run_options(rt: HostRuntime) -> Result<(), Fail> {
        let given = words(&rt, "--steps 1048576 a --script b --delay 8 --layers v")?;
        let parsed = parse_options(Command::Run, given.as_slice());
        assert_eq!(rt;
            parsed.map(|given| (given.steps, given.script)),
            Ok((Some(1048576), Some(4)))
        );
        assert_eq!(rt;
            parsed.map(Given::host_options),
            host(256, 2048, 8, Layers::Verifying)
        );
        for (text, place, reason) in [
            ("a --steps 1048577", 2, Reason::BadValue(Flag::Steps)),
            ("a --steps ", 2, Reason::BadValue(Flag::Steps)),
            ("a --steps", 2, Reason::NoValue(Flag::Steps)),
            ("--script", 1, Reason::NoValue(Flag::Script)),
            ("--steps 1 --steps 1", 2, Reason::Twice(Flag::Steps)),
            ("--script a --script b", 2, Reason::Twice(Flag::Script)),
            ("a --room 8", 1, Reason::Unknown),
            ("a --out b", 1, Reason::Unknown),
        ] {
            let given = words(&rt, text)?;
            assert_eq!(rt;
                parse_options(Command::Run, given.as_slice()),
                Err(Fault { place, reason })
            );
        }
        Ok(())
    }

    #[test]
    fn plain_words(rt: HostRuntime) -> Result<(), Fail> {
        let words = words(&rt, "--delay 8 a --layers v - --instances 3 b")?;
        for (nth, place) in [Some(2), Some(5), Some(8), None].iter().enumerate() {
            assert_eq!(rt; plain_place(words.as_slice(), nth), *place);
        }
        Ok(())
    }
}
