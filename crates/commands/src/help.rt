//! The end of the help on each command: a complete input, and the exit statuses.

/// For `serve`: a line of each verb.
pub(crate) const SERVE_END: &str =
    r#"Input lines, one of each verb; a write is {"do":..,"object":..}:
{"do":"create","object":{"kind":"Pod","metadata":{"name":"web-0"}}}
{"do":"get","kind":"Pod","name":"web-0"}
{"do":"list","kind":"Pod"}
{"do":"update","object":{"kind":"Pod","metadata":{"labels":{"app":"web"},"name":"web-0"}}}
{"do":"status","object":{"kind":"Pod","metadata":{"name":"web-0"},"status":{"phase":"Running"}}}
{"do":"delete","kind":"Pod","name":"web-0"}
{"do":"compact","resourceVersion":"4"}

Exit status:
  0  all was answered
  1  reading or writing failed, or memory ran out
  2  an unknown command line

More in docs/REFERENCE.md"#;

/// For `replay`: a script, and the events.
pub(crate) const REPLAY_END: &str =
    r#"Whole script, of a caller who creates a pod; from a file as `stsctl replay < FILE`:
{"capacity":10,"shards":2}
{"caller":1,"event":"call","request":{"do":"create","object":{"kind":"Pod","metadata":{"name":"a"}}}}
{"caller":1,"event":"check"}
{"caller":1,"event":"reserve"}
{"caller":1,"event":"publish"}
{"event":"raise"}
{"caller":1,"event":"reply"}

Events of a caller:
  call     calls a request, which is a line of `serve`
  check    a write is judged; if it is accepted it holds its shard
  reserve  the write draws the next number
  publish  the write goes into its shard
  read     a get or a list begins
  readat   a list at a version begins
  part     the next shard of a read answers
  compact  a compaction sets the floor
  reply    the reply is given
  crash    the caller is gone
Of nobody:
  raise    the frontier goes up by one, so that the next write can be read

Exit status:
  0  all was answered
  1  reading or writing failed, or memory ran out
  2  an unknown command line
  3  the script is refused; standard error says `refused: NAME`

More in docs/INTERLEAVINGS.md"#;

/// For `cluster`: a script, and the events.
pub(crate) const CLUSTER_END: &str =
    r#"Whole script, of a new set whose two pods come up; from a file as `stsctl cluster < FILE`:
{"capacity":100,"sets":[{"name":"web"}],"shards":2}
{"caller":9,"event":"ask","request":{"do":"create","object":{"kind":"StatefulSet","metadata":{"name":"web","namespace":"default"},"spec":{"replicas":2,"template":{}}}}}
{"event":"settle","rounds":5}
{"event":"settle","rounds":1}

Events of a controller, as {"controller":0,"event":"next"}:
  next      it calls what it asks next
  run       the steps that carry this to its reply
  round     requests and their replies, up to the end of its round
  approach  the same up to its next write, which is not called
  crash     it forgets its round, and begins anew as another caller
Of all controllers:
  settle    so many rounds of each; after all have made one, a kubelet makes a turn
Of a caller:
  outside   anybody else calls a request, which is a line of `serve`
  ask       the same, carried to its reply
  run       the steps that carry its request to its reply
The steps of callers, and `raise`, are those of `stsctl replay --help`

Exit status:
  0  all was answered
  1  reading or writing failed, or memory ran out
  2  an unknown command line
  3  the script is refused; standard error says `refused: NAME`

More in docs/CLUSTERS.md"#;

/// For `plan`: a set.
pub(crate) const PLAN_END: &str =
    r#"Whole input, of a set that is new; from a file as `stsctl plan --set web < FILE`:
{"kind":"StatefulSet","metadata":{"name":"web","uid":"00000000-0000-4000-8000-000000000001"},"spec":{"replicas":3,"template":{}}}
Its pods, claims and revisions come in the same input; from a cluster by examples/kubectl.jq:
kubectl get sts,po,pvc,controllerrevision -o json | jq -c -f kubectl.jq | stsctl plan --set web

Exit status:
  0  all was answered
  1  reading or writing failed, or memory ran out
  2  an unknown command line
  3  the plan is refused; standard error says `refused: NAME`

More in docs/PLANS.md"#;

/// For `outcomes`: a race of callers, and one of controllers.
pub(crate) const OUTCOMES_END: &str =
    r#"Whole input, of two callers who race for a name; from a file as `stsctl outcomes < FILE`:
{"capacity":100}
{"caller":1,"request":{"do":"create","object":{"kind":"Pod","metadata":{"name":"a"}}}}
{"caller":2,"request":{"do":"create","object":{"kind":"Pod","metadata":{"name":"a"}}}}
Either is told Created, and the other AlreadyExists; with --final, the stores that may be left
"ask" in place of "request" tells the caller to use what it was told before

Whole input of `stsctl outcomes --final < FILE`, of two controllers that make a round each of a set that is new:
{"capacity":100}
{"request":{"do":"create","object":{"kind":"StatefulSet","metadata":{"name":"web"},"spec":{"replicas":1,"template":{}}}}}
{"controller":{"name":"web"},"rounds":1}
{"controller":{"name":"web"},"rounds":1}
They leave the set and its revision, or a pod too
With "crash":true in its line a controller may crash once, and begins its round anew
A line {"kubelet":{},"turns":2} is of a kubelet; callers may race beside both

Exit status:
  0  all was answered
  1  reading or writing failed, or memory ran out
  2  an unknown command line
  3  the race is refused; standard error says `refused: NAME`

More in docs/LITMUS.md"#;

/// For `race`: the line that it prints.
pub(crate) const RACE_END: &str =
    r#"It prints: {"controllers":4,"legal":true,"rounds":16,"shards":8,"twice":0}

Exit status:
  0  all was answered
  1  writing failed, memory ran out, or a thread could not be made
  2  an unknown command line
  3  the race is not legal, which would be a bug

More in docs/RUNNING.md"#;
