use crate::{BodyError, Told, read_told};
use rnv_repo::Event;
use std::convert::{AsSlice, AsStr};
use std::test::Fail;

// A word for what a body tells.
fn word_of(told: &Result<Told, BodyError>) -> &'static str {
    match told {
        Ok(told) => match &told.event {
            Event::Push { .. } => "push",
            Event::Merged { .. } => "merged",
            Event::Closed { .. } => "closed",
            Event::Page { .. } => "page",
        },
        Err(BodyError::NotJson) => "not json",
        Err(BodyError::NotObject) => "not object",
        Err(BodyError::BadId) => "bad id",
        Err(BodyError::BadEvent) => "bad event",
        Err(BodyError::BadChanges) => "bad changes",
        Err(BodyError::BadNumber) => "bad number",
        Err(BodyError::BadText) => "bad text",
        Err(BodyError::Memory) => "memory",
    }
}

// What a body tells, and the body.
const ROWS: &str = r#"push|{"id":"d1","event":"push","changes":{"x.txt":"1"}}
push|{"changes":{},"event":"push","id":"~","other":[1]}
push|{"id":"d1","event":"push","changes":{"b":null,"a/c":""}}
merged|{"id":"d1","event":"merged","number":2}
merged|{"id":"d1","event":"merged","number":4294967295}
closed|{"id":"!\"\\","event":"closed","number":1}
page|{"id":"d1","event":"page","text":""}
not json|
not json|{"id":"d1"
not json|{} {}
not object|[]
not object|"push"
bad id|{}
bad id|{"id":1,"event":"page","text":"t"}
bad id|{"id":"","event":"page","text":"t"}
bad id|{"id":"a b","event":"page","text":"t"}
bad id|{"id":"\u00e4","event":"page","text":"t"}
bad id|{"id":"d1","id":"a b","event":"page","text":"t"}
bad event|{"id":"d1"}
bad event|{"id":"d1","event":"Push","changes":{}}
bad event|{"id":"d1","event":null}
bad changes|{"id":"d1","event":"push"}
bad changes|{"id":"d1","event":"push","changes":[]}
bad changes|{"id":"d1","event":"push","changes":{"a":"1","../b":"1"}}
bad changes|{"id":"d1","event":"push","changes":{"":"1"}}
bad changes|{"id":"d1","event":"push","changes":{"a":1}}
bad number|{"id":"d1","event":"merged"}
bad number|{"id":"d1","event":"merged","number":0}
bad number|{"id":"d1","event":"closed","number":4294967296}
bad number|{"id":"d1","event":"closed","number":1.0}
bad number|{"id":"d1","event":"closed","number":-1}
bad text|{"id":"d1","event":"page"}
bad text|{"id":"d1","event":"page","text":null}"#;

#[test]
fn bodies(rt: HostRuntime) -> Result<(), Fail> {
    for row in ROWS.split('\n') {
        let (want, body) = row.split_once('|').ok_or("no body")?;
        let told = read_told(rt.alloc(), body.as_bytes());
        assert_eq!(rt; word_of(&told), want, "at {row}");
    }
    Ok(())
}

#[test]
fn ids_of_any_length(rt: HostRuntime) -> Result<(), Fail> {
    let alloc = rt.alloc();
    for (length, want) in [(1, true), (128, true), (129, false)] {
        let mut body = String::from_str(alloc, "{\"event\":\"page\",\"text\":\"t\",\"id\":\"")?;
        for _ in 0..length {
            body.push('a')?;
        }
        body.push_str("\"}")?;
        let told = read_told(alloc, body.as_bytes());
        assert_eq!(rt; told.is_ok(), want);
    }
    Ok(())
}

#[test]
fn changes_by_path(rt: HostRuntime) -> Result<(), Fail> {
    let body = b"{\"id\":\"d1\",\"event\":\"push\",\"changes\":{\"b\":null,\"a/c\":\"1\\n\"}}";
    let told = match read_told(rt.alloc(), body.as_slice()) {
        Ok(told) => told,
        Err(_) => return Err(Fail::from("refused")),
    };
    assert_eq!(rt; told.id.as_str(), "d1");
    let Event::Push { changes } = &told.event else {
        return Err(Fail::from("another event"));
    };
    let [first, second] = changes.as_slice() else {
        return Err(Fail::from("another number"));
    };
    assert_eq!(rt; first.path.as_str(), "a/c");
    let bytes = first.bytes.as_ref().ok_or("no bytes")?;
    assert_eq!(rt; bytes.as_slice(), b"1\n".as_slice());
    assert_eq!(rt; second.path.as_str(), "b");
    assert!(rt; second.bytes.is_none());
    Ok(())
}
