//! The program: it hands the words and the handles to their task, and ends with its status.
#![tactic(auto)]

use command_files::{Fault, FileSource, say_fault};
use commands::{Console, Given, do_words, given_words};
use database_files::FileDatabases;
use outputs::{Gathered, Sink};
use serve_command::{FolderArchives, SourceAdditions};
use std::process::ExitCode;

fn main(rt: HostRuntime) -> ExitCode {
    let mut err = Sink::new(rt.stderr());
    let status = match Gathered::new(rt.alloc(), Sink::new(rt.stdout())) {
        Ok(out) => {
            let mut given = Given {
                source: FileSource { runtime: &rt },
                databases: FileDatabases { runtime: &rt },
                archives: FolderArchives { runtime: &rt },
                additions: SourceAdditions {
                    source: FileSource { runtime: &rt },
                },
                input: rt.stdin(),
            };
            let (status, _) = do_words(&rt, given_words(&rt), &mut given, Console { out, err });
            status
        }
        Err(_) => say_fault(rt.alloc(), &Fault::NoMemory, &mut err),
    };
    ExitCode::from(status.code())
}
