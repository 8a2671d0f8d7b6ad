// A table of commands, and the text that their names stand in.
ghost use Rattle.std.specs.Prelude.{◌≡◌, ◌+◌, ◌<◌, ◌≤◌, [], ◌∷◌, ◌++◌, length};
ghost use Rattle.draft.specs.Items.{text_of, items, item};

use crate::command::Command;
use rows::row::Row;

#[derive(Drop)]
pub struct Table {
    pub text: Row<u8, 16_384>,
    pub commands: Row<Command, 4_096>,
}

impl Table {
    // A table with no text and no command.
    pub fn new() -> Table
        ensures text { text_of result ≡ [] }
        ensures items { items result ≡ [] }
        ensures length { length result.text.items ≡ 0 }
        ensures count { length result.commands.items ≡ 0 }
    {
        Table {
            text: Row::new(0),
            commands: Row::new(Command::Int),
        }
    }

    // The table forgets its text and its commands.
    pub fn clear(&mut self)
        ensures text { text_of self.new ≡ [] }
        ensures items { items self.new ≡ [] }
        ensures length { length self.new.text.items ≡ 0 }
        ensures count { length self.new.commands.items ≡ 0 }
    {
        self.text.truncate(0);
        self.commands.truncate(0);
    }

    // The table takes a copy of a text and has no command then.
    pub fn load(&mut self, text: &[u8])
        requires { length text.now ≤ 16384 }
        ensures text { text_of self.new ≡ text.now }
        ensures items { items self.new ≡ [] }
        ensures length { length self.new.text.items ≡ length text.now }
        ensures count { length self.new.commands.items ≡ 0 }
    {
        self.text.copy_from(text);
        self.commands.truncate(0);
    }

    // One command more.
    pub fn push(&mut self, command: Command)
        requires { length self.old.commands.items < 4096 }
        ensures text { text_of self.new ≡ text_of self.old }
        ensures items { items self.new ≡ items self.old ++ item (text_of self.old) command ∷ [] }
        ensures length { length self.new.text.items ≡ length self.old.text.items }
        ensures count { length self.new.commands.items ≡ length self.old.commands.items + 1 }
    {
        self.commands.push(command);
    }
}
