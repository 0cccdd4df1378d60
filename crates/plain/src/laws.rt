//! The law of the lines that are served.
ghost use Rattle.std.specs.Prelude.{◌≡◌, ℕ, List, map as list_map};
ghost use Rattle.plain.specs.Requests.{request_of};
ghost use Rattle.plain.specs.Served.{answers};
ghost use Rattle.plain.specs.ServedRun.{requests, reply_lines};
ghost use Rattle.plain_store.specs.Run.{replies};
ghost use Rattle.plain_store.specs.Store.{Store};

/// The replies that `serve` writes are those of one run of the plain store by the requests among the lines, in their
/// order, with the refusals of the other lines in between, each at its line.
pub fn lines_are_one_run()
    ensures { (s : Store) (lines : List (List ℕ)) → let readings = list_map request_of lines in
        answers s lines ≡ reply_lines readings (replies s (requests readings)) }
{}
