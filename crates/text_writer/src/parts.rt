//! The parts that lines are made of.
ghost use Rattle.std.specs.Prelude.{◌≡◌, ◌++◌, ◌∷◌, []};
ghost use Rattle.text_model.specs.Canonical.{typed_text};
ghost use Rattle.text_model.specs.Parts.{line, blank, name};
ghost use Rattle.text_writer.specs.Writing.{Adds};
ghost use Rattle.text_writer.specs.Lines.{spaced};

use crate::digits::put_numbers;
use crate::writer::TextWriter;
use ctss_io::Sink;
use ctss_types::{LineText, name_text};
use itoa::{Buffer, Integer};
use word36::Word;

impl<K: Sink> TextWriter<'_, K> {
    /// Adds a text behind a blank.
    pub fn blank(&mut self, text: &[u8])
        ensures { Adds K.Sink (blank text.now) self.old self.new }
    {
        self.byte(b' ');
        self.add(text);
    }

    /// Adds what is typed, behind a blank, and nothing where it is empty.
    pub fn typed(&mut self, text: &LineText)
        ensures { Adds K.Sink (typed_text text.now) self.old self.new }
    {
        if !text.is_empty() {
            self.blank(text.as_slice());
        }
    }

    /// Adds a number behind a blank.
    pub fn number<I: Integer>(&mut self, n: I)
        ensures { Adds K.Sink (blank (I.text n)) self.old self.new }
    {
        let mut digits = Buffer::new();
        self.blank(digits.format(n).as_bytes());
    }

    /// Adds numbers, each behind a blank.
    pub fn numbers(&mut self, numbers: &[u64])
        ensures { Adds K.Sink (spaced numbers.now) self.old self.new }
    {
        for n in numbers {
            self.number(*n);
        }
    }

    /// Adds numbers, each behind a blank, and ends the line. Few of them are added as one text.
    pub fn end_by(&mut self, numbers: &[u64])
        ensures { Adds K.Sink (spaced numbers.now ++ 10 ∷ []) self.old self.new }
    {
        if numbers.len() <= 3 {
            let mut bytes = [b'\n'; 64];
            let start = put_numbers(numbers, &mut bytes, 63);
            self.add(&bytes[start..]);
            return;
        }
        self.numbers(numbers);
        self.end_line();
    }

    /// Adds a name behind a blank.
    pub fn name(&mut self, word: Word)
        ensures { Adds K.Sink (name word) self.old self.new }
    {
        let text = name_text(word);
        self.blank(text.as_slice());
    }

    /// Ends a line.
    pub fn end_line(&mut self)
        ensures { Adds K.Sink (10 ∷ []) self.old self.new }
    {
        self.byte(b'\n');
    }

    /// Adds a line.
    pub fn line(&mut self, text: &[u8])
        ensures { Adds K.Sink (line text.now) self.old self.new }
    {
        self.add(text);
        self.end_line();
    }
}
