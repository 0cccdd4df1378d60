//! A story of one store in lines, with the lines of its replies. They were worked out by hand.

/// The pod `p` is created, read, left as it is, given a status, changed, not changed by a stale version, listed with
/// another pod, marked and removed. Then the past is listed, compacted away, and refused.
pub(crate) static LINES: &str =
    r#"{"do":"create","object":{"spec":{"b":[1,-2,null,true,{"z":"","a":{}}],"a":"q\"\\\n\u00e9/"},"kind":"Pod","metadata":{"labels":{"b":"2","a":"1"},"name":"p"}}}
{"do":"get","kind":"Pod","name":"p"}
{"object":{"kind":"Pod","metadata":{"name":"p","labels":{"a":"1","b":"2"}},"spec":{"a":"\u0071\"\\\u000aé\/","b":[1,-2,null,true,{"a":{},"z":""}]}},"do":"update"}
{"do":"status","object":{"kind":"Pod","metadata":{"name":"p"},"status":{"phase":"Running"}}}
{"do":"get","kind":"Pod","name":"p"}
{"do":"status","object":{"kind":"Pod","metadata":{"name":"p"},"status":{"phase":"Running"}}}
{"do":"update","object":{"kind":"Pod","metadata":{"name":"p"},"spec":{"a":0},"status":7}}
{"do":"update","object":{"kind":"Pod","metadata":{"name":"p","resourceVersion":"2"},"spec":{"a":1}}}
{"do":"get","kind":"Pod","name":"p"}
{"do":"create","object":{"kind":"Pod","metadata":{"name":"q"}}}
{"do":"create","object":{"kind":"Pod","metadata":{"name":"q"}}}
{"do":"list","kind":"Pod"}
{"at":"2024-01-01T00:00:00Z","do":"delete","kind":"Pod","name":"p"}
{"do":"get","kind":"Pod","name":"p"}
{"do":"delete","kind":"Pod","name":"p","uid":"00000000-0000-4000-8000-000000000001"}
{"do":"list","kind":"Pod"}
{"do":"get","kind":"Pod","name":"p"}
{"do":"status","object":{"kind":"Pod","metadata":{"name":"p"},"status":{"phase":"Running"}}}
{"do":"list","kind":"Pod","resourceVersion":"3"}
{"do":"compact","resourceVersion":"4"}
{"do":"list","kind":"Pod","resourceVersion":"3"}
{"do":"list","kind":"Pod","resourceVersion":"4"}
{"do":"compact","resourceVersion":"3"}
{"do":"list","kind":"Pod","resourceVersion":"7"}
"#;

/// The replies.
pub(crate) static REPLIES: &str =
    r#"{"code":201,"object":{"kind":"Pod","metadata":{"generation":1,"labels":{"a":"1","b":"2"},"name":"p","namespace":"default","resourceVersion":"1","uid":"00000000-0000-4000-8000-000000000001"},"spec":{"a":"q\"\\\né/","b":[1,-2,null,true,{"a":{},"z":""}]}},"result":"Created"}
{"code":200,"object":{"kind":"Pod","metadata":{"generation":1,"labels":{"a":"1","b":"2"},"name":"p","namespace":"default","resourceVersion":"1","uid":"00000000-0000-4000-8000-000000000001"},"spec":{"a":"q\"\\\né/","b":[1,-2,null,true,{"a":{},"z":""}]}},"result":"Found"}
{"code":200,"object":{"kind":"Pod","metadata":{"generation":1,"labels":{"a":"1","b":"2"},"name":"p","namespace":"default","resourceVersion":"1","uid":"00000000-0000-4000-8000-000000000001"},"spec":{"a":"q\"\\\né/","b":[1,-2,null,true,{"a":{},"z":""}]}},"result":"Unchanged"}
{"code":200,"object":{"kind":"Pod","metadata":{"generation":1,"labels":{"a":"1","b":"2"},"name":"p","namespace":"default","resourceVersion":"2","uid":"00000000-0000-4000-8000-000000000001"},"spec":{"a":"q\"\\\né/","b":[1,-2,null,true,{"a":{},"z":""}]},"status":{"phase":"Running"}},"result":"Updated"}
{"code":200,"object":{"kind":"Pod","metadata":{"generation":1,"labels":{"a":"1","b":"2"},"name":"p","namespace":"default","resourceVersion":"2","uid":"00000000-0000-4000-8000-000000000001"},"spec":{"a":"q\"\\\né/","b":[1,-2,null,true,{"a":{},"z":""}]},"status":{"phase":"Running"}},"result":"Found"}
{"code":200,"object":{"kind":"Pod","metadata":{"generation":1,"labels":{"a":"1","b":"2"},"name":"p","namespace":"default","resourceVersion":"2","uid":"00000000-0000-4000-8000-000000000001"},"spec":{"a":"q\"\\\né/","b":[1,-2,null,true,{"a":{},"z":""}]},"status":{"phase":"Running"}},"result":"Unchanged"}
{"code":200,"object":{"kind":"Pod","metadata":{"generation":2,"name":"p","namespace":"default","resourceVersion":"3","uid":"00000000-0000-4000-8000-000000000001"},"spec":{"a":0},"status":{"phase":"Running"}},"result":"Updated"}
{"code":409,"reason":"Conflict"}
{"code":200,"object":{"kind":"Pod","metadata":{"generation":2,"name":"p","namespace":"default","resourceVersion":"3","uid":"00000000-0000-4000-8000-000000000001"},"spec":{"a":0},"status":{"phase":"Running"}},"result":"Found"}
{"code":201,"object":{"kind":"Pod","metadata":{"generation":1,"name":"q","namespace":"default","resourceVersion":"4","uid":"00000000-0000-4000-8000-000000000004"}},"result":"Created"}
{"code":409,"reason":"AlreadyExists"}
{"code":200,"items":[{"kind":"Pod","metadata":{"generation":2,"name":"p","namespace":"default","resourceVersion":"3","uid":"00000000-0000-4000-8000-000000000001"},"spec":{"a":0},"status":{"phase":"Running"}},{"kind":"Pod","metadata":{"generation":1,"name":"q","namespace":"default","resourceVersion":"4","uid":"00000000-0000-4000-8000-000000000004"}}],"resourceVersion":"4","result":"Listed"}
{"code":200,"object":{"kind":"Pod","metadata":{"deletionTimestamp":"2024-01-01T00:00:00Z","generation":2,"name":"p","namespace":"default","resourceVersion":"5","uid":"00000000-0000-4000-8000-000000000001"},"spec":{"a":0},"status":{"phase":"Running"}},"result":"Marked"}
{"code":200,"object":{"kind":"Pod","metadata":{"deletionTimestamp":"2024-01-01T00:00:00Z","generation":2,"name":"p","namespace":"default","resourceVersion":"5","uid":"00000000-0000-4000-8000-000000000001"},"spec":{"a":0},"status":{"phase":"Running"}},"result":"Found"}
{"code":200,"object":{"kind":"Pod","metadata":{"deletionTimestamp":"2024-01-01T00:00:00Z","generation":2,"name":"p","namespace":"default","resourceVersion":"6","uid":"00000000-0000-4000-8000-000000000001"},"spec":{"a":0},"status":{"phase":"Running"}},"result":"Removed"}
{"code":200,"items":[{"kind":"Pod","metadata":{"generation":1,"name":"q","namespace":"default","resourceVersion":"4","uid":"00000000-0000-4000-8000-000000000004"}}],"resourceVersion":"6","result":"Listed"}
{"code":404,"reason":"NotFound"}
{"code":404,"reason":"NotFound"}
{"code":200,"items":[{"kind":"Pod","metadata":{"generation":2,"name":"p","namespace":"default","resourceVersion":"3","uid":"00000000-0000-4000-8000-000000000001"},"spec":{"a":0},"status":{"phase":"Running"}}],"resourceVersion":"3","result":"Listed"}
{"code":200,"resourceVersion":"4","result":"Compacted"}
{"code":410,"reason":"Expired"}
{"code":200,"items":[{"kind":"Pod","metadata":{"generation":2,"name":"p","namespace":"default","resourceVersion":"3","uid":"00000000-0000-4000-8000-000000000001"},"spec":{"a":0},"status":{"phase":"Running"}},{"kind":"Pod","metadata":{"generation":1,"name":"q","namespace":"default","resourceVersion":"4","uid":"00000000-0000-4000-8000-000000000004"}}],"resourceVersion":"4","result":"Listed"}
{"code":410,"reason":"Expired"}
{"code":504,"reason":"TooLarge"}
"#;
