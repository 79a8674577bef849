//! Theorems on the words that encode inputs.

ghost use Rattle.tw_inputs.specs.InputWords.{OneInput, OneRejectedWord};

/// A word encodes at most one input, and at most one input word is the first that encodes none.
pub fn words_spell_one_input()
    ensures input { OneInput }
    ensures refused { OneRejectedWord }
{}
