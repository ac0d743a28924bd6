//! What the values have to do with fractions, and with models.

ghost use Rattle.split_values.specs.Laws.{SplitIsEnclosed, NoneIsBelow, SplitEnclosesAmong, NoneIsUnmatched};

use differences::Difference;

/// What the values have to do with fractions, and with models.
pub fn laws<Q: Difference>()
    ensures enclosed { SplitIsEnclosed Q.kind Q.difference Q.encloses }
    ensures below { NoneIsBelow Q.kind Q.difference }
    ensures among { SplitEnclosesAmong Q.kind Q.difference Q.encloses }
    ensures unmatched { NoneIsUnmatched Q.kind Q.difference }
{}
