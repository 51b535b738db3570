//! Words of a command line.

use super::cases::{Reading, Told, all_are_so};
use ba_command::{Command, WordsFault, read_words};
use ba_model::Failure;
use std::alloc::{AllocError, Global};
use std::fmt::Write;
use std::test::Fail;

fn add_words(alloc: Global, line: &str, words: &mut Vec<String>) -> Told {
    for word in line.split_whitespace() {
        let word = String::from_str(alloc, word)?;
        words.push(word)?;
    }
    Ok(())
}

fn write_command(told: &mut String, command: &Command) -> Told {
    match command {
        Command::Run {
            schema,
            policy,
            tables,
            script,
            load,
            proofs,
            workers,
            budget,
            orders,
        } => {
            write!(
                told,
                "{schema} {policy} {tables} {script} {workers} {budget} {orders}"
            )?;
            if *proofs {
                told.push_str(" proofs")?;
            }
            match load {
                Some(load) => write!(told, " {load}"),
                None => Ok(()),
            }
        }
        Command::Store {
            schema,
            policy,
            tables,
            script,
            workers,
            budget,
            orders,
        } => write!(
            told,
            "store {schema} {policy} {tables} {script} {workers} {budget} {orders}"
        ),
        Command::Check {
            schema,
            policy,
            proof,
        } => write!(told, "check {schema} {policy} {proof}"),
        Command::Gen {
            seed,
            requests,
            workers,
            print,
        } => write!(told, "gen {seed} {requests} {workers} {print}"),
        Command::Audit {
            schema,
            policy,
            tables,
            script,
            output,
        } => write!(told, "audit {schema} {policy} {tables} {script} {output}"),
    }
}

/// Words behind those of the front.
#[derive(Drop)]
struct Words {
    front: &'static str,
}

impl Reading for Words {
    fn tell(&self, alloc: Global, text: &str, told: &mut String) -> Told {
        let mut words = Vec::new(alloc);
        add_words(alloc, self.front, &mut words)?;
        add_words(alloc, text, &mut words)?;
        match read_words(alloc, words.as_slice()) {
            Ok(command) => write_command(told, &command),
            Err(Failure::NoMemory) => Err(AllocError),
            Err(Failure::Fault(WordsFault::NoForm)) => told.push_str("words"),
        }
    }
}

const WORDS: &str = "run --schema S --policy P --tables D --script F => S P D F 1 2000 1
run --script F --tables D --policy P --schema S => S P D F 1 2000 1
run --schema=S --policy=P --tables=D --script=F --workers=1 --budget=20 => S P D F 1 20 1
run --budget 16 --schema S --workers 1 --policy P --tables t/0 --script a=b => S P t/0 a=b 1 16 1
run --schema run --policy run --tables run --script run => run run run run 1 2000 1

run
help
run run --schema S --policy P --tables D --script F
Run --schema S --policy P --tables D --script F
--schema S --policy P --tables D --script F
run --schema S --tables D --script F
run --schema S --policy P --tables D --script
run --schem S --policy P --tables D --script F
run --schema S T --policy P --tables D --script F
run S P D F
run --schema S --policy P --tables D --script F --proof F

store --schema S --policy P --tables D --script F => store S P D F 1 2000 1
store --budget=16 --script F --workers 16 --tables D --policy P --schema S => store S P D F 16 16 1
store --schema S --policy P --tables D --script F --orders 2 => store S P D F 1 2000 2

store
Store --schema S --policy P --tables D --script F
store store --schema S --policy P --tables D --script F
store --schema S --policy P --tables D
store --schema S --policy P --tables D --script F --load T
store --schema S --policy P --tables D --script F --budget 15
store --schema S --policy P --tables D --script F --workers 17
store --schema S --policy P --tables D --script F --print
store --schema S --policy P --tables D --script F --proofs
store --schema S --policy P --tables D --script F --orders 3
store --schema S --policy P --proof F

audit --schema S --policy P --tables D --script F --output O => audit S P D F O
audit --output=O --script=F --tables=t/0 --policy=P --schema=S => audit S P t/0 F O
audit --schema audit --policy run --tables audit --script store --output audit => audit audit run audit store audit

audit
Audit --schema S --policy P --tables D --script F --output O
audit audit --schema S --policy P --tables D --script F --output O
audit --schema S --policy P --tables D --script F
audit --schema S --policy P --tables D --output O
audit --schema S --policy P --tables D --script F --output
audit --schema S --policy P --tables D --script F --out O
audit --schema S --policy P --tables D --script F --output O O
audit --schema S --policy P --tables D --script F --output O --output O
audit --schema S --policy P --tables D --script F --output O --load T
audit --schema S --policy P --tables D --script F --output O --proofs
audit --schema S --policy P --tables D --script F --output O --workers 1
audit --schema S --policy P --tables D --script F --output O --budget 16
audit --schema S --policy P --tables D --script F --output O --orders 1
audit --schema S --policy P --proof F

check --schema S --policy P --proof F => check S P F
check --proof=F --policy=P --schema=S => check S P F
check --policy check --proof run --schema check => check check check run

check
Check --schema S --policy P --proof F
check check --schema S --policy P --proof F
check --schema S --policy P
check --schema S --policy P --proof
check --schema S --policy P --prove F
check --schema S --policy P --proof F G
check --schema S --policy P --proof F --proof F
check --schema S --policy P --proof F --budget 16
check --schema S --policy P --proof F --output O
check --schema S --policy P --script F

gen --seed 0 --requests 1 => gen 0 1 1 false
gen --seed 0 --requests 1 --print => gen 0 1 1 true
gen --seed 7 --requests 1000 --workers 4 => gen 7 1000 4 false
gen --print --workers=16 --requests=8192 --seed=9223372036854775807 => gen 9223372036854775807 8192 16 true
gen --seed +007 --requests 0 => gen 7 0 1 false

gen
gen --seed 7
gen --requests 1
gen --seed --requests 1
gen --seed 7 --requests
gen --seed 9223372036854775808 --requests 1
gen --seed 18446744073709551623 --requests 1
gen --seed -1 --requests 1
gen --seed 7 --requests 8193
gen --seed 7 --requests 4294967297
gen --seed 7 --requests 1 --workers 0
gen --seed 7 --requests 1 --workers 17
gen --seed 7 --requests 1 --print true
gen --seed 7 --requests 1 --print=true
gen --seed 7 --requests 1 --print --print
gen --seed 7 --requests 1 --budget 16
gen --seed 7 --requests 1 --orders 1
gen --seed 7 --requests 1 --proofs
gen --seed 7 --seed 7 --requests 1
gen --seed 7 --requests 1 --schema S
gen gen --seed 7 --requests 1
generate --seed 7 --requests 1";

/// Options behind the four names.
const OPTIONS: &str = "--load T => S P D F 1 2000 1 T
--load=T --budget 16 => S P D F 1 16 1 T
--workers 2 --load t/0 --budget 20 => S P D F 2 20 1 t/0
--load F => S P D F 1 2000 1 F
--orders 1 => S P D F 1 2000 1
--orders 2 => S P D F 1 2000 2
--orders=+02 => S P D F 1 2000 2
--orders 0
--orders 3
--orders two
--orders
--orders 2 --orders 2
--order 2
--proofs => S P D F 1 2000 1 proofs
--proofs --orders 2 --budget 16 --workers 3 --load T => S P D F 3 16 2 proofs T
--proofs --proofs
--proofs true
--proofs=true
--proof
--output O
--load
--load T --load T
--load T U
--loa T
--budget 100000 => S P D F 1 100000 1
--budget=+0016 => S P D F 1 16 1
--budget 15
--budget 100001
--budget -16
--budget 1e3
--budget
--budget=
--budget 4294967316
--budget 16 --budget 16
--budge 20
--workers 2 => S P D F 2 2000 1
--workers 16 => S P D F 16 2000 1
--workers 17
--workers 0
--workers one
--workers 1 --workers 1
--threads 1
--help
-h
--version
x
-- x
--schema S";

#[test]
fn words_of_commands(rt: HostRuntime) -> Result<(), Fail> {
    all_are_so(&rt, &Words { front: "" }, WORDS, "words")?;
    let front = "run --schema S --policy P --tables D --script F";
    all_are_so(&rt, &Words { front }, OPTIONS, "words")
}
