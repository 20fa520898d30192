//! The words of the command line.

ghost use Rattle.std.specs.Prelude.{◌≡◌, ◌≤◌, IfSome, map, option_map};
ghost use Rattle.std.specs.String.{string_bytes};
ghost use Rattle.gbus.specs.Program.{job_of, one_word};
ghost use Rattle.gbus.specs.Jobs.{job_seen, seed_of};

use gb_script::number_word;

/// The greatest number from which a script is made.
const GREATEST_SEED: u32 = 2_147_483_647;

/// What the words ask for.
#[derive(Clone, Copy, Debug, PartialEq, Eq)]
pub enum Job {
    /// What is written of each line, and then what stands behind all.
    ByLine(LineJob),
    /// What is written at the end alone.
    Task(Task),
}

/// What is done of the input line by line.
#[derive(Clone, Copy, Debug, PartialEq, Eq)]
pub enum LineJob {
    /// The report of a script.
    Report {
        /// The bytes of messages are shown.
        hex: bool,
    },
    /// The audit of a capture.
    Audit,
}

/// What is done of the input as a whole, or without it.
#[derive(Clone, Copy, Debug, PartialEq, Eq)]
pub enum Task {
    /// Of the input as a whole.
    Whole(WholeJob),
    /// The lines of a script are run by their requesters.
    Share {
        /// The bytes of messages are shown.
        hex: bool,
    },
    /// The summary of a made script.
    Drive {
        /// The number from which it is made, at most 2,147,483,647.
        seed: u32,
    },
}

/// What is done of the input as a whole.
#[derive(Clone, Copy, Debug, PartialEq, Eq)]
pub enum WholeJob {
    /// The check of a manifest.
    Check {
        /// The dump of a manifest that is one.
        dump: bool,
    },
    /// The manifest of a text.
    Compile,
    /// The text of a manifest.
    Decompile,
}

/// What the words ask for, None where they are none of the program's.
pub fn job_of(words: &[String]) -> Option<Job>
    ensures job { option_map job_seen result ≡ job_of (map string_bytes words.now) }
    ensures seed { IfSome result (λ j. seed_of j ≤ 2147483647) }
{
    match words {
        [word] => one_word(word.as_str()),
        [word, hex] if word.as_str() == "run" && hex.as_str() == "--hex" => {
            Some(Job::ByLine(LineJob::Report { hex: true }))
        }
        [word, hex] if word.as_str() == "share" && hex.as_str() == "--hex" => {
            Some(Job::Task(Task::Share { hex: true }))
        }
        [word, number] if word.as_str() == "drive" => {
            let seed = number_word(number.as_str().as_bytes(), 0, GREATEST_SEED)?;
            Some(Job::Task(Task::Drive { seed }))
        }
        _ => None,
    }
}

/// What one word asks for.
fn one_word(word: &str) -> Option<Job>
    ensures job { option_map job_seen result ≡ one_word word.now }
    ensures seed { IfSome result (λ j. seed_of j ≡ 0) }
{
    match word {
        "run" => Some(Job::ByLine(LineJob::Report { hex: false })),
        "share" => Some(Job::Task(Task::Share { hex: false })),
        "audit" => Some(Job::ByLine(LineJob::Audit)),
        "check" => Some(Job::Task(Task::Whole(WholeJob::Check { dump: false }))),
        "dump" => Some(Job::Task(Task::Whole(WholeJob::Check { dump: true }))),
        "compile" => Some(Job::Task(Task::Whole(WholeJob::Compile))),
        "decompile" => Some(Job::Task(Task::Whole(WholeJob::Decompile))),
        _ => None,
    }
}
