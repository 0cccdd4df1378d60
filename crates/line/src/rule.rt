// The rule of a line's words, what a seat learns by each kind of step, and how new seats are cut off and taken in.
use crate::notes::{Flooring, Judging, Noting};
use crate::view::NotedView;
use atomic_table::{Join, Play, Seat, Split, Table, TableRule};
use std::alloc::Global;
use std::marker::PhantomData;

pub(crate) struct LineRule<K> {
    of: PhantomData<K>,
}

impl<E, K: Judging<E>> TableRule<(), NotedView<E>, u64> for LineRule<K> {
    ghost use Rattle.line.specs.NotedRule.{NotedRule};
    ghost use Rattle.line.specs.NotedView.{first_noted};

    ghost holds = { λ capacity s. NotedRule K.home K.by K.accepts capacity s.words s.views };

    ghost first = { λ capacity. first_noted capacity };
}

pub(crate) type Words<E, K> = Table<(), NotedView<E>, u64, LineRule<K>, Global>;

pub(crate) type Place<E> = Seat<(), NotedView<E>>;

pub(crate) struct Draw<J> {
    of: PhantomData<J>,
}

impl<E, J: Noting<E>> Play<(), NotedView<E>> for Draw<J> {
    ghost use Rattle.std.specs.Prelude.{◌≡◌};
    ghost use Rattle.line.specs.NotedSteps.{DrawsNoted};

    ghost then = { λ _ m n w. (w.1 ≡ m.1) × DrawsNoted J.note m.0 n w.0 };
}

pub(crate) struct Fill;

impl<E> Play<(), NotedView<E>> for Fill {
    ghost use Rattle.std.specs.Prelude.{◌≡◌};
    ghost use Rattle.line.specs.NotedSteps.{FillsNoted};

    ghost then = { λ s m _ w. (w.1 ≡ m.1) × FillsNoted s.word m.0 w.0 };
}

pub(crate) struct Try;

impl<E> Play<(), NotedView<E>> for Try {
    ghost use Rattle.std.specs.Prelude.{◌≡◌};
    ghost use Rattle.line.specs.NotedSteps.{TriesNoted};

    ghost then = { λ s m n w. (w.1 ≡ m.1) × TriesNoted s.word m.0 n w.0 };
}

pub(crate) struct Lift<K> {
    of: PhantomData<K>,
}

impl<E, K: Judging<E>> Play<(), NotedView<E>> for Lift<K> {
    ghost use Rattle.std.specs.Prelude.{◌≡◌};
    ghost use Rattle.line.specs.NotedSteps.{LiftsNoted};

    ghost then = { λ s m n w. (w.1 ≡ m.1) × LiftsNoted K.home K.by K.accepts s.first m.0 n w.0 };
}

pub(crate) struct Look<K> {
    of: PhantomData<K>,
}

impl<E, K: Judging<E>> Play<(), NotedView<E>> for Look<K> {
    ghost use Rattle.std.specs.Prelude.{◌≡◌};
    ghost use Rattle.line.specs.NotedSteps.{LooksNoted};

    ghost then = { λ _ m n w. (w.1 ≡ m.1) × LooksNoted K.home K.by K.accepts m.0 n w.0 };
}

/// It is noted what a shard has, and its floor.
pub(crate) struct Observe<K, F> {
    of: PhantomData<(K, F)>,
}

impl<E, K: Judging<E>, F: Flooring> Play<(), NotedView<E>> for Observe<K, F> {
    ghost use Rattle.std.specs.Prelude.{◌≡◌};
    ghost use Rattle.line.specs.NotedSteps.{Observes};

    ghost then = { λ _ m _ w. (w.1 ≡ m.1) × Observes K.home K.by K.accepts F.floor m.0 w.0 };
}

/// A caller's seat gets a name.
pub(crate) struct Name<K> {
    of: PhantomData<K>,
}

impl<E, K: Judging<E>> Play<(), NotedView<E>> for Name<K> {
    ghost use Rattle.std.specs.Prelude.{◌≡◌};
    ghost use Rattle.line.specs.NotedSteps.{IsNamed};

    ghost then = { λ _ m _ w. (w.1 ≡ m.1) × IsNamed K.home K.by K.accepts m.0 w.0 };
}

/// A shard's seat, cut off the first seat.
pub(crate) struct ForShard;

impl<E> Split<NotedView<E>> for ForShard {
    ghost use Rattle.line.specs.NotedView.{cut_off, shard_noted};

    ghost left = { cut_off };

    ghost right = { shard_noted };
}

/// A caller's seat, which has seen what the other has.
pub(crate) struct ForCaller;

impl<E> Split<NotedView<E>> for ForCaller {
    ghost use Rattle.line.specs.NotedView.{caller_noted};

    ghost left = { λ v. v };

    ghost right = { caller_noted };
}

/// A caller's seat enters a shard's.
pub(crate) struct Enters;

impl<E> Join<NotedView<E>> for Enters {
    ghost use Rattle.line.specs.NotedView.{entered, left_over};

    ghost both = { entered };

    ghost spent = { left_over };
}

/// And leaves it.
pub(crate) struct Leaves;

impl<E> Split<NotedView<E>> for Leaves {
    ghost use Rattle.line.specs.NotedView.{stayed, left_with};

    ghost left = { stayed };

    ghost right = { left_with };
}

/// A seat learns what another has seen.
pub(crate) struct Tells;

impl<E> Join<NotedView<E>> for Tells {
    ghost use Rattle.line.specs.NotedView.{left_over, told};

    ghost both = { told };

    ghost spent = { left_over };
}
