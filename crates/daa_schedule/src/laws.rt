//! What holds over every list of steps, refused ones among them. A clause of `Core::apply` says
//! that the core steps as these laws' `stepped`.

ghost use Rattle.std.specs.Prelude.{◌≡◌, ℕ, ◌+◌, ◌*◌, ◌<◌, ◌≤◌, List, [], ◌∷◌, false, None, length};
ghost use Rattle.daa_range.specs.Range.{range_of};
ghost use Rattle.daa_schedule.specs.Answers.{AreAnswers};
ghost use Rattle.daa_schedule.specs.CoreState.{IsWhole, opened, range_at, hand_at, left_of};
ghost use Rattle.daa_schedule.specs.Example.{five_for_two_after};
ghost use Rattle.daa_schedule.specs.Step.{fault_of, stepped};
ghost use Rattle.daa_schedule.specs.Runs.{run, is_end, accepted, AllEnded};
ghost use Rattle.daa_schedule.specs.declared.step.Step.{Step};

/// After every list of steps each unit is once in a range, a hand or on the board, and each word
/// there is its answer.
pub fn every_run_is_whole()
    ensures { (answers : List ℕ) (workers : ℕ) (steps : List Step) → 0 < workers
        → AreAnswers answers → IsWhole (run (opened answers workers) steps) }
{}

/// If all workers have ended, the board is the list of answers.
pub fn a_run_to_the_end_answers_all()
    ensures { (answers : List ℕ) (workers : ℕ) (steps : List Step) → 0 < workers
        → AreAnswers answers → AllEnded (run (opened answers workers) steps)
        → (run (opened answers workers) steps).board ≡ answers }
{}

/// What is left at the opening is 3 for each unit.
pub fn the_opening_has_three_left_for_each_unit()
    ensures { (answers : List ℕ) (workers : ℕ)
        → left_of (opened answers workers) ≡ 3 * length answers }
{}

/// Every accepted step but `End` lowers what is left by at least 1.
pub fn each_accepted_step_lowers_what_is_left()
    ensures { (answers : List ℕ) (workers : ℕ) (steps : List Step) (step : Step) → 0 < workers
        → AreAnswers answers → fault_of (run (opened answers workers) steps) step ≡ None
        → is_end step ≡ false
        → left_of (stepped (run (opened answers workers) steps) step) < left_of
        (run (opened answers workers) steps) }
{}

/// Accepted steps other than `End` are at most three for each unit.
pub fn accepted_steps_are_few()
    ensures { (answers : List ℕ) (workers : ℕ) (steps : List Step) → 0 < workers
        → AreAnswers answers → accepted (opened answers workers) steps ≤ 3 * length answers }
{}

/// An example: of five units worker 1 steals two, keeps one of them and settles the other. A second
/// theft is refused.
pub fn what_is_left_of_five_units_for_two_workers()
    ensures opening { left_of (five_for_two_after []) ≡ 15 }
    ensures stolen { left_of (five_for_two_after (Step.Steal 1 0 ∷ [])) ≡ 14 }
    ensures range { range_at (five_for_two_after (Step.Steal 1 0 ∷ [])) 0 ≡ range_of 0 3 }
    ensures hand { hand_at (five_for_two_after (Step.Steal 1 0 ∷ [])) 1 ≡ range_of 3 5 }
    ensures refused { five_for_two_after (Step.Steal 1 0 ∷ Step.Steal 1 0 ∷ []) ≡ five_for_two_after
        (Step.Steal 1 0 ∷ []) }
    ensures kept { left_of (five_for_two_after (Step.Steal 1 0 ∷ Step.Keep 1 ∷ [])) ≡ 13 }
    ensures settled { left_of
        (five_for_two_after (Step.Steal 1 0 ∷ Step.Keep 1 ∷ Step.Settle 1 14 ∷ [])) ≡ 12 }
{}
