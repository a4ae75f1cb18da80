//! Commands that are kept as the words that they are stored as.

ghost use Rattle.std.specs.Prelude.{◌≡◌, Some};
ghost use Rattle.layers.specs.Commands.{command_of, word_of, IsCommand};

use layers::{Code, Command, KeyNo, LayerNo};
use std::marker::Model;

/// A command as the word of 32 bits that it is stored as: four bytes, which are passed on as one.
#[derive(Clone, Copy, Debug)]
pub struct CommandWord {
    word: u32,
}

impl Model for CommandWord {
    ghost use Rattle.std.specs.Prelude.{◌≡◌};
    ghost use Rattle.layers.specs.Commands.{word_of, IsCommand};
    ghost use Rattle.layers.specs.declared.command.Command.{Command};
    ghost use Rattle.layers.specs.representation.CommandWords.{command_at};

    ghost Value = { Command };

    ghost view = { λ c. command_at c.word };

    ghost invariant = { λ c. IsCommand (command_at c.word) × (word_of (command_at c.word) ≡ c.word) };

    ghost inverse = { λ c. record { word = word_of c } };

    ghost inverse_ok = { λ c h i. record { word = h.1 i } };
}

impl CommandWord {
    /// Keeps a command as its word.
    #[inline(always)]
    pub fn of(command: Command) -> CommandWord
        ensures { result ≡ command }
    {
        CommandWord {
            word: command.word(),
        }
    }

    /// Returns the command.
    #[inline(always)]
    pub fn command(self) -> Command
        ensures { result ≡ self }
    {
        let (layer, key) = (self.word / 0x100_0000 % 16, self.word / 0x1_0000 % 256);
        match self.word / 0x1000_0000 {
            1 => Command::SetKey {
                layer: LayerNo::known(layer as u8),
                key: KeyNo::known(key as u8),
                code: Code::known((self.word % 0x1_0000) as u16),
            },
            2 => Command::ResetLayer(LayerNo::known(layer as u8)),
            _ => Command::ResetAll,
        }
    }

    /// Returns the word of the command.
    #[inline(always)]
    pub fn word(self) -> u32
        ensures value { result ≡ word_of self }
        ensures read_back { command_of result ≡ Some self }
        ensures a_command { IsCommand self }
    {
        self.word
    }
}
