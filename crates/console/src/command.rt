// The commands of a script, as a line writes them.
use crate::host_command::HostCommand;
use crate::question::Question;
use crate::table_command::TableCommand;
use crate::words::{Unread, Words};
use std::alloc::Global;

// A command with its words read, and nothing made of them yet.
#[derive(Drop)]
pub(crate) enum Command {
    Table(TableCommand),
    Host(HostCommand),
    Question(Question),
}

impl Command {
    // The command that a line writes.
    pub(crate) fn read(heap: Global, line: &[u8]) -> Result<Command, Unread> {
        let mut words = Words::new(heap, line);
        let name = words.word()?;
        let command = Command::named(name, &mut words)?;
        words.end()?;
        Ok(command)
    }

    fn named(name: &[u8], words: &mut Words) -> Result<Command, Unread> {
        if let Some(command) = TableCommand::read(name, words)? {
            return Ok(Command::Table(command));
        }
        if let Some(command) = HostCommand::read(name, words)? {
            return Ok(Command::Host(command));
        }
        let question = Question::read(name, words)?.ok_or(Unread::Malformed)?;
        Ok(Command::Question(question))
    }
}
