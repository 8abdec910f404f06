//! What holds of the texts of tables. Nothing runs.

ghost use Rattle.std.specs.Prelude.{ℕ, List};
ghost use Rattle.text_tables.specs.Laws.{ClosedTextsArePlain};

/// What is written of elements and of words.
pub trait PlainTableTexts {
    /// What elements are as plain data.
    ghost Plain: { Type 0 };

    /// What words are as plain data.
    ghost Word: { Type 0 };

    /// Which bytes are a text of an element.
    ghost IsElement: { Plain → List ℕ → Type 0 };

    /// The text of a word of so many bits.
    ghost word_text: { ℕ → Word → List ℕ };
}

/// Where no block is left open, the text of a table that may be is that of the table.
pub fn closed_texts_are_plain<T: PlainTableTexts>()
    ensures { ClosedTextsArePlain T.word_text T.IsElement }
{}
