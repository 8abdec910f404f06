//! Cases of a transfer, as definitions and laws over any analysis. Nothing runs.
//!
//! A transfer of an element may lose that its targets and what stands behind it belong together. Take intervals, and an instruction that leads to
//! 100 where x is below 8, and to 200 else, on x from 0 to 9: its targets are 100 and 200, and behind it x is 0 to 9 at both. Split by
//! x at 8, the element is the two pieces 0 to 7 and 8 to 9, whose transfers lead to 100 with x from 0 to 7, and to 200 with x from 8 to 9. No
//! backward evaluation is needed.
//!
//! *Pieces* (specs/Pieces). An element is cut at numbers of one cell. What is asked of a kind of elements is above all `piece_holds`: in
//! each state the cell has a number, of at most 64 bits, and a piece between numbers around that holds of the state. Besides, pieces fit and list no new
//! stamp. Then pieces by any cuts cover the element (`pieces_cover`). Of several cells and cuts the first is taken that narrows the element: none of its pieces
//! absorbs it (specs/Narrowing).
//!
//! *Cases* (specs/Cases). A `Split` says which elements are split and into what. `IsSplit` asks only that no state is lost. To a depth, pieces
//! are split again.
//!
//! *Analyses by cases* (specs/Sent, specs/ByCases). The transfers of the cases of an element come to one outcome: what each sends stays at its target, two that
//! go to one address join there, and their uses are merged. Where a case has too many targets, and where the element is not split, it moves as a whole.
//!
//! *What is proved.* Each state of an element is one of a case, and cases fit (`cases_cover`, `cases_fit`). So an analysis by cases keeps the laws of
//! an analysis (`analyses_by_cases_keep_the_laws`), and is sound for each machine for which the analysis is (`analyses_by_cases_are_sound`): what a table says
//! that is closed for it holds of every run. All hold for each choice of cells and cuts and each depth.
#![tactic(auto)]

pub mod laws;
