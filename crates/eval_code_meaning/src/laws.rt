//! Laws of the meaning of code, stated in specs/Laws.antt. Nothing runs.

ghost use Rattle.eval_code_meaning.specs.Laws.{CallsMeanTheSame, CodeMeansTheSame, GroupsMeanTheSame};

use base_trait::Base;

/// The code of a function gives to a turn what its core term gives, over any base and whatever calls give.
pub fn code_means_the_same<B: Base>()
    ensures { CodeMeansTheSame B.algebra }
{}

/// In an accepted specification turns of a group by its code are turns by its core terms.
pub fn groups_mean_the_same<B: Base>()
    ensures { GroupsMeanTheSame B.algebra }
{}

/// And calls are what its code means exactly where they are the reinterpretation of its core terms.
pub fn calls_mean_the_same<B: Base>()
    ensures { CallsMeanTheSame B.algebra }
{}
