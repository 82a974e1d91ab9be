//! Laws of the definitions, for callers above, and words whose meaning is known.

ghost use Rattle.std.specs.Prelude.{◌≡◌, ◌∷◌, [], Some, None, codes};
ghost use Rattle.daa_words.specs.Laws.{EachTakenOrders, EachOrderIsTaken};
ghost use Rattle.daa_words.specs.Order.{order_of};
ghost use Rattle.daa_words.specs.Task as task;

/// Words are taken exactly if clap's own definition finds no fault in them: then there is an order,
/// for the subcommand, with the text at `--config` and with the numbers that clap reads in the
/// words, each in its range, and with 4 workers if the words give no `--workers`. No other words
/// give an order.
pub fn taken_words_give_an_order()
    ensures order { EachTakenOrders }
    ensures only { EachOrderIsTaken }
{}

/// What some words ask for: a replay, or nothing.
pub fn worked_examples()
    ensures apart { order_of
        (codes "daidalus" ∷ codes "replay" ∷ codes "--config" ∷ codes "plan.toml" ∷ [])
        ≡ Some (record { task = task.Replay 0; config = codes "plan.toml"; workers = 4 }) }
    ensures joined { order_of (codes "daidalus" ∷ codes "replay" ∷ codes "--config=plan.toml" ∷ [])
        ≡ Some (record { task = task.Replay 0; config = codes "plan.toml"; workers = 4 }) }
    ensures any_program_name { order_of
        (codes "" ∷ codes "replay" ∷ codes "--config" ∷ codes "f" ∷ [])
        ≡ Some (record { task = task.Replay 0; config = codes "f"; workers = 4 }) }
    ensures ended { order_of
        (codes "daidalus" ∷ codes "replay" ∷ codes "--config" ∷ codes "f" ∷ codes "--" ∷ [])
        ≡ Some (record { task = task.Replay 0; config = codes "f"; workers = 4 }) }
    ensures empty_name { order_of
        (codes "daidalus" ∷ codes "replay" ∷ codes "--config" ∷ codes "" ∷ [])
        ≡ Some (record { task = task.Replay 0; config = codes ""; workers = 4 }) }
    ensures most_workers { order_of
        (codes "daidalus" ∷ codes "replay" ∷ codes "--config=f" ∷ codes "--workers" ∷ codes "16"
        ∷ [])
        ≡ Some (record { task = task.Replay 0; config = codes "f"; workers = 16 }) }
    ensures most_ahead { order_of
        (codes "daidalus" ∷ codes "replay" ∷ codes "--config=f" ∷ codes "--ahead" ∷ codes "1024"
        ∷ [])
        ≡ Some (record { task = task.Replay 1024; config = codes "f"; workers = 4 }) }
    ensures too_far_ahead { order_of
        (codes "daidalus" ∷ codes "replay" ∷ codes "--config=f" ∷ codes "--ahead" ∷ codes "1025"
        ∷ []) ≡ None }
    ensures no_workers { order_of
        (codes "daidalus" ∷ codes "replay" ∷ codes "--config=f" ∷ codes "--workers" ∷ codes "0"
        ∷ []) ≡ None }
    ensures too_many_workers { order_of
        (codes "daidalus" ∷ codes "replay" ∷ codes "--config=f" ∷ codes "--workers" ∷ codes "17"
        ∷ []) ≡ None }
    ensures seed_of_a_replay { order_of
        (codes "daidalus" ∷ codes "replay" ∷ codes "--seed" ∷ codes "1" ∷ codes "--config"
        ∷ codes "f" ∷ []) ≡ None }
    ensures no_words { order_of [] ≡ None }
    ensures name_alone { order_of (codes "daidalus" ∷ []) ≡ None }
    ensures no_config { order_of (codes "daidalus" ∷ codes "replay" ∷ []) ≡ None }
    ensures no_value { order_of (codes "daidalus" ∷ codes "replay" ∷ codes "--config" ∷ []) ≡ None }
    ensures no_subcommand { order_of (codes "daidalus" ∷ codes "--config" ∷ codes "f" ∷ []) ≡ None }
    ensures help { order_of (codes "daidalus" ∷ codes "help" ∷ []) ≡ None }
    ensures help_of_replay { order_of (codes "daidalus" ∷ codes "replay" ∷ codes "-h" ∷ []) ≡ None }
    ensures version { order_of (codes "daidalus" ∷ codes "--version" ∷ []) ≡ None }
    ensures shortened { order_of
        (codes "daidalus" ∷ codes "replay" ∷ codes "--conf" ∷ codes "f" ∷ []) ≡ None }
    ensures short_name { order_of
        (codes "daidalus" ∷ codes "replay" ∷ codes "-c" ∷ codes "f" ∷ []) ≡ None }
    ensures repeated { order_of
        (codes "daidalus" ∷ codes "replay" ∷ codes "--config=f" ∷ codes "--config=f" ∷ []) ≡ None }
    ensures extra { order_of
        (codes "daidalus" ∷ codes "replay" ∷ codes "--config=f" ∷ codes "g" ∷ []) ≡ None }
{}

/// What the words of some exercises ask for.
pub fn worked_exercises()
    ensures exercise { order_of
        (codes "daidalus" ∷ codes "exercise" ∷ codes "--config" ∷ codes "c" ∷ codes "--seed"
        ∷ codes "7" ∷ codes "--moments" ∷ codes "100" ∷ [])
        ≡ Some (record { task = task.Exercise 7 100; config = codes "c"; workers = 4 }) }
    ensures greatest { order_of
        (codes "daidalus" ∷ codes "exercise" ∷ codes "--config=f" ∷ codes "--seed=4294967295"
        ∷ codes "--moments=10000" ∷ codes "--workers=16" ∷ [])
        ≡ Some
        (record { task = task.Exercise 4294967295 10000; config = codes "f"; workers = 16 }) }
    ensures sign_and_zeros { order_of
        (codes "daidalus" ∷ codes "exercise" ∷ codes "--config=f" ∷ codes "--seed=+4"
        ∷ codes "--moments=004" ∷ [])
        ≡ Some (record { task = task.Exercise 4 4; config = codes "f"; workers = 4 }) }
    ensures zero_with_a_minus { order_of
        (codes "daidalus" ∷ codes "exercise" ∷ codes "--config=f" ∷ codes "--seed=-0"
        ∷ codes "--moments=1" ∷ [])
        ≡ Some (record { task = task.Exercise 0 1; config = codes "f"; workers = 4 }) }
    ensures no_seed { order_of
        (codes "daidalus" ∷ codes "exercise" ∷ codes "--config=f" ∷ codes "--moments=1"
        ∷ []) ≡ None }
    ensures too_great_a_seed { order_of
        (codes "daidalus" ∷ codes "exercise" ∷ codes "--config=f" ∷ codes "--seed=4294967296"
        ∷ codes "--moments=1" ∷ [])
        ≡ None }
    ensures negative_seed { order_of
        (codes "daidalus" ∷ codes "exercise" ∷ codes "--config=f" ∷ codes "--seed=-1"
        ∷ codes "--moments=1" ∷ [])
        ≡ None }
    ensures no_moments { order_of
        (codes "daidalus" ∷ codes "exercise" ∷ codes "--config=f" ∷ codes "--seed=1"
        ∷ codes "--moments=0" ∷ []) ≡ None }
    ensures too_many_moments { order_of
        (codes "daidalus" ∷ codes "exercise" ∷ codes "--config=f" ∷ codes "--seed=1"
        ∷ codes "--moments=10001" ∷ [])
        ≡ None }
{}

/// What the words of some comparisons ask for.
pub fn worked_judgements()
    ensures apart { order_of
        (codes "daidalus" ∷ codes "judge" ∷ codes "--config" ∷ codes "c" ∷ codes "--states"
        ∷ codes "s" ∷ [])
        ≡ Some (record { task = task.Judge (codes "s"); config = codes "c"; workers = 4 }) }
    ensures joined { order_of
        (codes "daidalus" ∷ codes "judge" ∷ codes "--states=" ∷ codes "--workers=2"
        ∷ codes "--config=c" ∷ [])
        ≡ Some (record { task = task.Judge []; config = codes "c"; workers = 2 }) }
    ensures no_states { order_of
        (codes "daidalus" ∷ codes "judge" ∷ codes "--config" ∷ codes "c" ∷ []) ≡ None }
    ensures no_config { order_of
        (codes "daidalus" ∷ codes "judge" ∷ codes "--states" ∷ codes "s" ∷ []) ≡ None }
    ensures ahead { order_of
        (codes "daidalus" ∷ codes "judge" ∷ codes "--config=c" ∷ codes "--states=s"
        ∷ codes "--ahead=1" ∷ []) ≡ None }
    ensures states_of_a_replay { order_of
        (codes "daidalus" ∷ codes "replay" ∷ codes "--config=c" ∷ codes "--states=s" ∷ []) ≡ None }
{}
