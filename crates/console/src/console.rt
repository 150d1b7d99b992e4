// The console: what a script has entered, and the answers to its commands.
use crate::command::Command;
use crate::host_command::{Fixed, HostCommand, HostWords};
use crate::question::{PythonQuestion, Question};
use crate::script::{Script, is_silent};
use crate::show::Shown;
use crate::station::{Overlays, Station};
use crate::stop::Stop;
use crate::table::Table;
use crate::table_command::{RowWords, TableCommand};
use crate::telling::Teller;
use crate::words::{ReleaseWord, TextWord, Unread, Written, make_all};
use diagrams::ids::NodeId;
use evaluation::extras::{evaluate_extras, evaluate_extras_and_python_version};
use std::alloc::{AllocError, Global};
use std::fmt::Display;
use std::io;
use std::io::{BufWriter, Stdout};

#[derive(Drop)]
pub(crate) struct Console {
    heap: Global,
    teller: Teller,
    table: Table,
    station: Station,
}

impl Console {
    pub(crate) fn new(heap: Global, out: BufWriter<Stdout>) -> Console {
        Console {
            heap,
            teller: Teller::new(heap, out),
            table: Table::new(heap),
            station: Station::new(heap),
        }
    }

    // Answers the commands of a script, and prints what is still held back.
    pub(crate) fn run(&mut self, script: Script) -> io::Result<()> {
        for (number, line) in script {
            if is_silent(line) {
                continue;
            }
            match Command::read(self.heap, line) {
                Ok(command) => self.obey(command)?,
                Err(Unread::Malformed) => self.teller.tell(format_args!("unreadable {number}"))?,
                Err(Unread::NoMemory) => return Err(AllocError.into()),
            }
        }
        self.teller.finish()
    }

    // Answers a command, or tells why it has no answer.
    fn obey(&mut self, command: Command) -> io::Result<()> {
        match self.answer(command) {
            Ok(()) => Ok(()),
            Err(Stop::Refused(fault)) => self.teller.tell(Shown(fault)),
            Err(Stop::NotNow) => self.teller.tell("not-now"),
            Err(Stop::Failed(error)) => Err(error),
        }
    }

    fn answer(&mut self, command: Command) -> Result<(), Stop> {
        match command {
            Command::Table(command) => self.answer_table(command),
            Command::Host(command) => self.answer_host(command),
            Command::Question(question) => self.answer_question(question),
        }
    }

    fn answer_table(&mut self, command: TableCommand) -> Result<(), Stop> {
        match command {
            TableCommand::Release(word) => self.value::<ReleaseWord>("release", &word),
            TableCommand::Text(word) => self.value::<TextWord>("text", &word),
            TableCommand::Row(words) => self.row(&words),
            TableCommand::Clear => self.clear(),
            TableCommand::Admit => self.admit(),
            TableCommand::Negate(id) => self.negate(id),
            TableCommand::Kind(id) => self.kind(id),
        }
    }

    fn answer_host(&mut self, command: HostCommand) -> Result<(), Stop> {
        match command {
            HostCommand::Host(words) => self.host(words),
            HostCommand::Names(words) => self.names(&words),
            HostCommand::Record => self.record(),
            HostCommand::Overlay(words) => self.overlay(&words),
            HostCommand::Bare => self.bare(),
        }
    }

    fn answer_question(&mut self, question: Question) -> Result<(), Stop> {
        match question {
            Question::Evaluate(root, places) => self.evaluate(root, places),
            Question::Extras(root, names) => self.extras(root, &names),
            Question::ExtrasPython(question) => self.extras_python(&question),
        }
    }

    fn say<L: Display + Drop>(&mut self, line: L) -> Result<(), Stop> {
        Ok(self.teller.tell(line)?)
    }

    // The value of a word, told behind the name of its kind.
    fn value<V: Written>(&mut self, name: &str, word: &V) -> Result<(), Stop>
    where
        Shown<V::Value>: Display,
    {
        let value = word.make()?;
        self.say(format_args!("{name} {}", Shown(value)))
    }

    fn row(&mut self, words: &RowWords) -> Result<(), Stop> {
        self.table.enter(words)?;
        self.say("ok")
    }

    fn clear(&mut self) -> Result<(), Stop> {
        self.table.clear();
        self.say("ok")
    }

    fn admit(&mut self) -> Result<(), Stop> {
        self.table.admit()?;
        self.say("admitted")
    }

    fn negate(&mut self, id: NodeId) -> Result<(), Stop> {
        let negation = id.negate().0;
        self.say(format_args!("id {negation}"))
    }

    fn kind(&mut self, id: NodeId) -> Result<(), Stop> {
        let diagram = self.table.admit()?;
        let kind = diagram.kind(id)?;
        Ok(self.teller.tell(Shown(kind))?)
    }

    fn host(&mut self, words: HostWords) -> Result<(), Stop> {
        self.station.set_host(words)?;
        self.say("ok")
    }

    fn names(&mut self, words: &[TextWord]) -> Result<(), Stop> {
        let names = make_all(self.heap, words)?;
        self.station.set_names(names);
        self.say("ok")
    }

    fn record(&mut self) -> Result<(), Stop> {
        self.station.record()?;
        self.say("record")
    }

    fn overlay(&mut self, words: &Fixed<ReleaseWord>) -> Result<(), Stop> {
        self.station.put_over(words)?;
        self.say("ok")
    }

    fn bare(&mut self) -> Result<(), Stop> {
        self.station.make_bare();
        self.say("ok")
    }

    fn evaluate(&mut self, root: NodeId, places: usize) -> Result<(), Stop> {
        let diagram = self.table.admit()?;
        let record = self.station.record()?;
        let teller = &mut self.teller;
        // A host with another overlay is of another type, so that each number of them has its call.
        match self.station.overlays() {
            Overlays::None => teller.tell_evaluation(&diagram, root, &record, places),
            Overlays::One(only) => {
                let host = only.over(&record);
                teller.tell_evaluation(&diagram, root, &host, places)
            }
            Overlays::Two(below, top) => {
                let host = below.over(&record);
                let host = top.over(&host);
                teller.tell_evaluation(&diagram, root, &host, places)
            }
        }
    }

    fn extras(&mut self, root: NodeId, words: &[TextWord]) -> Result<(), Stop> {
        let diagram = self.table.admit()?;
        let names = make_all(self.heap, words)?;
        let answer = evaluate_extras(&diagram, root, &names)?;
        self.say(Shown(answer))
    }

    fn extras_python(&mut self, question: &PythonQuestion) -> Result<(), Stop> {
        let diagram = self.table.admit()?;
        let releases = make_all(self.heap, &question.releases)?;
        let names = make_all(self.heap, &question.names)?;
        let root = question.root;
        let answer = evaluate_extras_and_python_version(&diagram, root, &names, &releases)?;
        self.say(Shown(answer))
    }
}
