use super::*;
use std::alloc::{AllocError, Global};
use std::test::Fail;

// The command of these words, the program's own name first.
fn read(alloc: Global, line: &[&str]) -> Result<Option<Command>, AllocError> {
    let mut words = Vec::new(alloc);
    for word in line {
        words.push(String::from_str(alloc, word)?)?;
    }
    read_words(alloc, &words)
}

// A prediction with all defaults.
const DEFAULT: Command = Command {
    task: Task::Predict,
    steps: 30,
    problem: None,
    ego_acc: 8,
    ego_speed: 50,
    ego_length: 4500,
    ego_width: 1800,
    cell_x: 2000,
    cell_y: 1000,
    seed: 1,
    lanes: 3,
    movers: 20,
};

// Words that stand for a command.
const COMMANDS: [(&[&str], Command); 38] = [
    (&["spot", "predict"], DEFAULT),
    (
        &["spot", "area"],
        Command {
            task: Task::Area,
            ..DEFAULT
        },
    ),
    (
        &["spot", "replay"],
        Command {
            task: Task::Replay,
            ..DEFAULT
        },
    ),
    (
        &["spot", "draw"],
        Command {
            task: Task::Draw,
            ..DEFAULT
        },
    ),
    (
        &["spot", "sample"],
        Command {
            task: Task::Sample,
            ..DEFAULT
        },
    ),
    (&["spot", "--", "predict"], DEFAULT),
    (&["spot", "predict", "--"], DEFAULT),
    (&["", "predict"], DEFAULT),
    (&["fly", "predict"], DEFAULT),
    (
        &["spot", "predict", "--steps", "1", "--"],
        Command {
            steps: 1,
            ..DEFAULT
        },
    ),
    (
        &["spot", "--steps", "1", "predict"],
        Command {
            steps: 1,
            ..DEFAULT
        },
    ),
    (
        &["spot", "predict", "--steps=1"],
        Command {
            steps: 1,
            ..DEFAULT
        },
    ),
    (
        &["spot", "predict", "--steps", "0000000007"],
        Command {
            steps: 7,
            ..DEFAULT
        },
    ),
    (
        &["spot", "predict", "--steps", "007"],
        Command {
            steps: 7,
            ..DEFAULT
        },
    ),
    (
        &["spot", "predict", "--steps", "1"],
        Command {
            steps: 1,
            ..DEFAULT
        },
    ),
    (
        &["spot", "predict", "--steps", "100"],
        Command {
            steps: 100,
            ..DEFAULT
        },
    ),
    (
        &["spot", "predict", "--problem", "0"],
        Command {
            problem: Some(0),
            ..DEFAULT
        },
    ),
    (
        &["spot", "predict", "--problem", "4294967295"],
        Command {
            problem: Some(4294967295),
            ..DEFAULT
        },
    ),
    (
        &["spot", "predict", "--ego-acc", "1"],
        Command {
            ego_acc: 1,
            ..DEFAULT
        },
    ),
    (
        &["spot", "predict", "--ego-acc", "20"],
        Command {
            ego_acc: 20,
            ..DEFAULT
        },
    ),
    (
        &["spot", "predict", "--ego-speed", "1"],
        Command {
            ego_speed: 1,
            ..DEFAULT
        },
    ),
    (
        &["spot", "predict", "--ego-speed", "100"],
        Command {
            ego_speed: 100,
            ..DEFAULT
        },
    ),
    (
        &["spot", "predict", "--ego-length", "100"],
        Command {
            ego_length: 100,
            ..DEFAULT
        },
    ),
    (
        &["spot", "predict", "--ego-length", "20000"],
        Command {
            ego_length: 20000,
            ..DEFAULT
        },
    ),
    (
        &["spot", "predict", "--ego-width", "100"],
        Command {
            ego_width: 100,
            ..DEFAULT
        },
    ),
    (
        &["spot", "predict", "--ego-width", "20000"],
        Command {
            ego_width: 20000,
            ..DEFAULT
        },
    ),
    (
        &["spot", "predict", "--cell-x", "100"],
        Command {
            cell_x: 100,
            ..DEFAULT
        },
    ),
    (
        &["spot", "predict", "--cell-x", "100000"],
        Command {
            cell_x: 100000,
            ..DEFAULT
        },
    ),
    (
        &["spot", "predict", "--cell-y", "100"],
        Command {
            cell_y: 100,
            ..DEFAULT
        },
    ),
    (
        &["spot", "predict", "--cell-y", "100000"],
        Command {
            cell_y: 100000,
            ..DEFAULT
        },
    ),
    (
        &["spot", "predict", "--seed", "0"],
        Command { seed: 0, ..DEFAULT },
    ),
    (
        &["spot", "predict", "--seed", "4294967295"],
        Command {
            seed: 4294967295,
            ..DEFAULT
        },
    ),
    (
        &["spot", "predict", "--lanes", "1"],
        Command {
            lanes: 1,
            ..DEFAULT
        },
    ),
    (
        &["spot", "predict", "--lanes", "8"],
        Command {
            lanes: 8,
            ..DEFAULT
        },
    ),
    (
        &["spot", "predict", "--movers", "0"],
        Command {
            movers: 0,
            ..DEFAULT
        },
    ),
    (
        &["spot", "predict", "--movers", "1000"],
        Command {
            movers: 1000,
            ..DEFAULT
        },
    ),
    (
        &[
            "spot",
            "area",
            "--steps",
            "12",
            "--problem",
            "7",
            "--ego-acc",
            "3",
            "--ego-speed",
            "40",
            "--ego-length",
            "5000",
            "--ego-width",
            "2000",
            "--cell-x",
            "1500",
            "--cell-y",
            "750",
            "--seed",
            "9",
            "--lanes",
            "2",
            "--movers",
            "100",
        ],
        Command {
            task: Task::Area,
            steps: 12,
            problem: Some(7),
            ego_acc: 3,
            ego_speed: 40,
            ego_length: 5000,
            ego_width: 2000,
            cell_x: 1500,
            cell_y: 750,
            seed: 9,
            lanes: 2,
            movers: 100,
        },
    ),
    (
        &[
            "spot",
            "--movers=0",
            "--lanes=1",
            "--seed=0",
            "--cell-y=100",
            "--cell-x=100000",
            "--ego-width=100",
            "--ego-length=20000",
            "--ego-speed=1",
            "--ego-acc=20",
            "--problem=0",
            "sample",
            "--steps=100",
        ],
        Command {
            task: Task::Sample,
            steps: 100,
            problem: Some(0),
            ego_acc: 20,
            ego_speed: 1,
            ego_length: 20000,
            ego_width: 100,
            cell_x: 100000,
            cell_y: 100,
            seed: 0,
            lanes: 1,
            movers: 0,
        },
    ),
];

// Words that stand for no command.
const BAD: [&[&str]; 70] = [
    &[],
    &["spot"],
    &["spot", "fly"],
    &["spot", "Predict"],
    &["spot", "predict2"],
    &["spot", "predict", "predict"],
    &["spot", "predict", "area"],
    &["spot", "-"],
    &["spot", "--"],
    &["spot", "--", "--", "predict"],
    &["spot", ""],
    &["predict"],
    &["spot", "predict", "--help"],
    &["spot", "--help"],
    &["spot", "predict", "-h"],
    &["spot", "-h"],
    &["spot", "--version"],
    &["spot", "-V"],
    &["spot", "predict", "--version"],
    &["spot", "help"],
    &["spot", "predict", "--unknown", "1"],
    &["spot", "predict", "--step", "1"],
    &["spot", "predict", "--steps"],
    &["spot", "predict", "--steps", "--"],
    &["spot", "predict", "--steps", "--", "1"],
    &["spot", "predict", "--", "--steps", "1"],
    &["spot", "predict", "--steps="],
    &["spot", "predict", "--steps", "1", "--steps", "1"],
    &["spot", "predict", "--steps=1", "--steps", "1"],
    &["spot", "predict", "--steps=1", "--steps=1"],
    &["spot", "predict", "-steps", "1"],
    &["spot", "predict", "-s", "1"],
    &["spot", "predict", "--Steps", "1"],
    &["spot", "predict", "5"],
    &["spot", "predict", "--steps", "1", "2"],
    &["spot", "predict", "--steps", "+1"],
    &["spot", "predict", "--steps", "-1"],
    &["spot", "predict", "--steps", "-"],
    &["spot", "predict", "--steps", "1.0"],
    &["spot", "predict", "--steps", "0x1"],
    &["spot", "predict", "--steps", "1e1"],
    &["spot", "predict", "--steps", "١"],
    &["spot", "predict", "--steps", "5a"],
    &["spot", "predict", "--steps", "--seed", "1"],
    &["spot", "predict", "--steps", ""],
    &["spot", "predict", "--steps", " 1"],
    &["spot", "predict", "--steps", "1 "],
    &["spot", "predict", "--steps", "00000000007"],
    &["spot", "predict", "--steps", "0000000000"],
    &["spot", "predict", "--steps", "0"],
    &["spot", "predict", "--steps", "101"],
    &["spot", "predict", "--problem", "4294967296"],
    &["spot", "predict", "--ego-acc", "0"],
    &["spot", "predict", "--ego-acc", "21"],
    &["spot", "predict", "--ego-speed", "0"],
    &["spot", "predict", "--ego-speed", "101"],
    &["spot", "predict", "--ego-length", "99"],
    &["spot", "predict", "--ego-length", "20001"],
    &["spot", "predict", "--ego-width", "99"],
    &["spot", "predict", "--ego-width", "20001"],
    &["spot", "predict", "--cell-x", "99"],
    &["spot", "predict", "--cell-x", "100001"],
    &["spot", "predict", "--cell-y", "99"],
    &["spot", "predict", "--cell-y", "100001"],
    &["spot", "predict", "--seed", "4294967296"],
    &["spot", "predict", "--lanes", "0"],
    &["spot", "predict", "--lanes", "9"],
    &["spot", "predict", "--movers", "1001"],
    &["spot", "predict", "--problem", "4294967296", "--steps", "1"],
    &["spot", "replay", "--steps", "9999999999"],
];

#[test]
fn words_stand_for_their_command(rt: HostRuntime) -> Result<(), Fail> {
    for (words, command) in COMMANDS {
        assert_eq!(rt; read(rt.alloc(), words)?, Some(command), "of {words:?}");
    }
    Ok(())
}

#[test]
fn other_words_stand_for_none(rt: HostRuntime) -> Result<(), Fail> {
    for words in BAD {
        assert_eq!(rt; read(rt.alloc(), words)?, None, "of {words:?}");
    }
    Ok(())
}
