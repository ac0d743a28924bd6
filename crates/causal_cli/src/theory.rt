//! The laws that words ask for one thing at most, and that the text of an answer is fixed.

ghost use Rattle.command_run.specs.Vocabulary.{WordsAskOnce};
ghost use Rattle.causal_cli.specs.Commands.{commands};
ghost use Rattle.causal_cli.specs.Texts.{TextsAreOne};

/// What follows from the form of words, that they ask for one thing at most; and that the answers to a request that have one outcome have one text on
/// the bytes of its inputs, but for those that `TextsAreOne` leaves open.
pub fn laws()
    ensures once { WordsAskOnce commands }
    ensures texts { TextsAreOne }
{}
