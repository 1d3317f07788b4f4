use command_words::{Command, MessageWord, Serving, WordsFault, read_words};
use otp_model::Profile;
use std::alloc::{AllocError, Global};
use std::test::Fail;

/// The words of a line, divided at bars, and behind them the words that each command needs.
fn words(alloc: Global, line: &str) -> Result<Vec<String>, AllocError> {
    let mut words = Vec::new(alloc);
    for word in line.split('|') {
        words.push(String::from_str(alloc, word)?)?;
    }
    for word in ["--zone", "Etc/UTC=UTC0", "--from", "20240506"] {
        words.push(String::from_str(alloc, word)?)?;
    }
    Ok(words)
}

/// The front of words that are no command.
const REFUSED: [&str; 27] = [
    // No command, or too few or too many positional words.
    "show|f",
    "check",
    "check|f|q",
    "plan|f",
    "serve",
    "serve|f|q=1",
    // A message without a feed or a name, or of a feed that isn't there.
    "plan|f|q=1|=m.pb",
    "plan|f|q=1|1=",
    "plan|f|q=1|2=m.pb",
    "plan|f|q=1|0=m.pb",
    // An option twice, without a value, with one that isn't plain, or in one word with it.
    "check|f|--feeds|2|--feeds|2",
    "check|--days|--feeds|2|f",
    "check|f|--days|-1",
    "check|f|--days=7",
    "check|--|f",
    // An option of no command, or of `serve` alone.
    "check|f|--host|h",
    "check|f|--port|80",
    "plan|f|q=1|--connections|1",
    // Numbers out of range, too long, or none.
    "check|f|--days|32",
    "check|f|--speed|99",
    "check|f|--reach|5000001",
    "check|f|--days|0000000000000000007",
    "check|f|--days|+7",
    "serve|f|--port|65536",
    "serve|f|--workers|0",
    "serve|f|--connections|1099511627777",
    // With the zone and the first day behind it: twice.
    "check|f|--zone|Etc/UTC=UTC0",
];

fn refused() -> &'static [&'static str] {
    &REFUSED
}

const MESSAGES: [MessageWord<'static>; 2] = [
    MessageWord {
        feed_no: 16,
        name: "m.pb",
    },
    MessageWord {
        feed_no: 1,
        name: "a=b",
    },
];

const PLAN: &str =
    "plan|f|q=1|16=m.pb|--days|000000000000000031|--feeds|16|--speed|100|--reach|0|--scale|0|01=a=b";

const LEAST: Profile = Profile {
    speed: 100,
    reach: 0,
    scale: 0,
};

fn is_the_plan(command: &Command<'_>) -> bool {
    match command {
        Command::Plan {
            folder,
            query,
            messages,
            options,
        } => {
            (*folder, *query) == ("f", "q=1")
                && messages.as_slice() == MESSAGES.as_slice()
                && (options.first_day, options.days, options.feeds) == (19_849, 31, 16)
                && options.profile == LEAST
        }
        Command::Check { .. } | Command::Serve { .. } => false,
    }
}

const SERVE: &str = "serve|--port|0|f|--workers|64";

const SERVED: Serving = Serving {
    port: 0,
    workers: 64,
    connections: 1_099_511_627_776,
};

fn is_served(command: &Command<'_>) -> bool {
    match command {
        Command::Serve {
            folder,
            options,
            serving,
        } => *folder == "f" && options.days == 7 && *serving == SERVED,
        Command::Check { .. } | Command::Plan { .. } => false,
    }
}

fn are_refused(alloc: Global, line: &str) -> Result<bool, AllocError> {
    let words = words(alloc, line)?;
    Ok(matches!(read_words(alloc, &words), Err(WordsFault::Words)))
}

#[test]
fn reads_words(rt: HostRuntime) -> Result<(), Fail> {
    let alloc = rt.alloc();
    let words = words(alloc, PLAN)?;
    match read_words(alloc, &words) {
        Ok(command) => assert!(rt; is_the_plan(&command)),
        Err(_) => assert!(rt; false, "no plan"),
    }
    for line in refused() {
        assert!(rt; are_refused(alloc, line)?, "{line}");
    }
    Ok(())
}

#[test]
fn reads_how_to_serve(rt: HostRuntime) -> Result<(), Fail> {
    let alloc = rt.alloc();
    let words = words(alloc, SERVE)?;
    match read_words(alloc, &words) {
        Ok(command) => assert!(rt; is_served(&command)),
        Err(_) => assert!(rt; false, "nothing to serve"),
    }
    Ok(())
}
