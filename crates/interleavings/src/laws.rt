ghost use Rattle.std.specs.Prelude.{ℕ, ◌<◌, List};
ghost use Rattle.requests.specs.declared.request.Request.{Request};
ghost use Rattle.interleavings.specs.declared.event.Event.{Event};
ghost use Rattle.interleavings.specs.declared.trace.Item.{Item};
ghost use Rattle.interleavings.specs.declared.trace.Item.TheVariants.{Call};
ghost use Rattle.interleavings.specs.World.{Size, opening};
ghost use Rattle.interleavings.specs.Linearizable.{IsLinearizable};
ghost use Rattle.interleavings.specs.Linearization.{Before, Has, IsHistory, IsLegal};
ghost use Rattle.interleavings.specs.Order.{order};
ghost use Rattle.interleavings.specs.Spared.{IsSpared};
ghost use Rattle.interleavings.specs.Trace.{after, trace};

/// Every run is linearizable (Herlihy and Wing 1990): for each list of events, whatever the callers and however their
/// steps and crashes are mixed, there is an order of the requests in which one plain store, which handles whole
/// requests one at a time, gives exactly the replies of the run, and in which a request comes before each one called
/// after its reply.
pub fn runs_are_linearizable()
    ensures { (size : Size) (events : List Event) → 0 < size.shards → IsLinearizable size events }
{}

/// The order that a run builds, event by event, is such an order.
pub fn built_orders_are_legal()
    ensures { (size : Size) (events : List Event) → 0 < size.shards → IsLegal size.capacity (trace size events) (order size events) }
{}

/// In a legal order the requests of one caller are in the order in which they were called.
pub fn callers_keep_their_order()
    ensures { (capacity : ℕ) (items : List Item) (places : List ℕ) → IsHistory items → IsLegal capacity items places
        → (p q caller : ℕ) (r s : Request) → Has (Call p caller r) items → Has (Call q caller s) items → p < q
        → Has q places → Before p q places }
{}

/// A compaction never drops what is still to be read: a number that is at most the floor, and at most the number of
/// each read that has begun, stays so after all further events.
pub fn compactions_spare_reads()
    ensures { (size : Size) (events later : List Event) (number : ℕ) → 0 < size.shards
        → IsSpared (after size opening events) number → IsSpared (after size (after size opening events) later) number }
{}
