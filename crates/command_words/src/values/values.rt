// The values of words of the form, as `clap` finds them.

ghost use Rattle.std.specs.Prelude.{◌≡◌, List, true, option_map};
ghost use Rattle.std.specs.Option.{option_and_then};
ghost use Rattle.clap.specs.Simple.{subcommand_rows_of};
ghost use Rattle.clap.specs.Walk.{first_of};
ghost use Rattle.command_words.specs.Form.{Row, Use, is_among, value_names, positional_names, value_of, has_flag, word_of};

use clap::ArgMatches;

/// The values of words of the form, by the names of the row.
#[derive(Drop)]
pub struct Values<'a> {
    pub matches: ArgMatches<'a>,
}

impl<'a> Values<'a> {
    ghost use Rattle.command_words.specs.Gives.{HoldsCall};

    // What was found for a name below the command.
    fn text(&self, name: &str) -> Option<&'a str>
        ensures { option_map (λ s. s.now) result
            ≡ option_and_then (λ p. first_of name.now p.1) (subcommand_rows_of self.now.matches) }
    {
        match self.matches.subcommand() {
            Some((_, inner)) => inner.get_str(name),
            None => None,
        }
    }

    /// The word of a positional.
    pub fn word(&self, name: &str) -> Option<&'a str>
        ensures { (row : Row) (uses : List Use) → HoldsCall row uses self.now → is_among (positional_names row) name.now ≡ true
            → option_map (λ s. s.now) result ≡ word_of row uses name.now }
    {
        self.text(name)
    }

    /// The value of an option.
    pub fn option(&self, name: &str) -> Option<&'a str>
        ensures { (row : Row) (uses : List Use) → HoldsCall row uses self.now → is_among (value_names row) name.now ≡ true
            → option_map (λ s. s.now) result ≡ value_of uses name.now }
    {
        self.text(name)
    }

    /// Whether a flag is there.
    pub fn flag(&self, name: &str) -> bool
        ensures { (row : Row) (uses : List Use) → HoldsCall row uses self.now → is_among row.flags name.now ≡ true
            → result ≡ has_flag uses name.now }
    {
        match self.matches.subcommand() {
            Some((_, inner)) => inner.get_flag(name),
            None => false,
        }
    }
}
