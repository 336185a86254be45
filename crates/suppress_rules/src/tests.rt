// Tables of patterns and of files.
use crate::parts::Text;
use crate::pattern::matches;
use crate::{RuleFault, Rules, first_met};
use run_record::{Items, Places};
use std::alloc::{AllocError, Global};
use std::process::Abort;
use std::test::Fail;
use symbol_lines::{FileText, Frame, Frames};

fn check_matches(rt: &impl Abort, pattern: &str, texts: &[(&str, bool)]) {
    for (text, wanted) in texts {
        let found = matches(pattern.as_bytes(), Text::of_bytes(text.as_bytes()));
        assert!(rt; found == *wanted, "{pattern} {text}");
    }
}

#[test]
fn patterns(rt: HostRuntime) {
    check_matches(&rt, "", [("", false), ("a", true)].as_slice());
    check_matches(&rt, "*", [("", false), ("a", true)].as_slice());
    check_matches(&rt, "^", [("", false), ("a", true)].as_slice());
    check_matches(&rt, "$", [("", false), ("a", true)].as_slice());
    check_matches(&rt, "^$", [("", false), ("a", false)].as_slice());
    check_matches(&rt, "^*$", [("", false), ("a", true)].as_slice());
    check_matches(
        &rt,
        "foo",
        [("foo", true), ("xfoox", true), ("fo", false)].as_slice(),
    );
    check_matches(&rt, "^foo", [("foo1", true), ("xfoo", false)].as_slice());
    check_matches(
        &rt,
        "foo$",
        [("xfoo", true), ("foo1", false), ("foofoo", true)].as_slice(),
    );
    check_matches(
        &rt,
        "^foo$",
        [("foo", true), ("foo1", false), ("foofoo", false)].as_slice(),
    );
    check_matches(
        &rt,
        "a*b",
        [("xaybz", true), ("ba", false), ("ab", true)].as_slice(),
    );
    check_matches(
        &rt,
        "^a**b$",
        [("ab", true), ("axxb", true), ("axbc", false)].as_slice(),
    );
    check_matches(
        &rt,
        "ab*ab$",
        [("ab", false), ("abab", true), ("abxab", true)].as_slice(),
    );
    check_matches(&rt, "^^", [("^a", true), ("a^", false)].as_slice());
    check_matches(&rt, "$$", [("a$", true), ("$a", false)].as_slice());
    check_matches(&rt, "a^b", [("a^b", true), ("ab", false)].as_slice());
}

fn fault_of(alloc: Global, bytes: &[u8]) -> Option<RuleFault> {
    Rules::read(alloc, bytes).err()
}

#[test]
fn faults(rt: HostRuntime) {
    let alloc = rt.alloc();
    assert_eq!(rt; fault_of(alloc, b""), None);
    assert_eq!(rt; fault_of(alloc, b"race:a\n"), None);
    assert_eq!(rt; fault_of(alloc, b"race a"), Some(RuleFault::NoColon(1)));
    assert_eq!(rt;
        fault_of(alloc, b"# a\n\nhush:a"),
        Some(RuleFault::UnknownType(3))
    );
    assert_eq!(rt;
        fault_of(alloc, b"race a\nhush:a\n"),
        Some(RuleFault::NoColon(1))
    );
    assert_eq!(rt;
        fault_of(alloc, b"hush:a\nrace a\n"),
        Some(RuleFault::UnknownType(1))
    );
    assert_eq!(rt;
        fault_of(alloc, b"race :a"),
        Some(RuleFault::UnknownType(1))
    );
    assert_eq!(rt; fault_of(alloc, b"race a\n\xff"), Some(RuleFault::NotUtf8));
    let types =
        b"race:\nrace_top:\nthread:\nmutex:\nsignal:\ndeadlock:\ncalled_from_lib:a:b\n \t#\r\n";
    assert_eq!(rt; fault_of(alloc, types), None);
}

// Names of the places 0 to 3.
struct FourPlaces;

impl Frames for FourPlaces {
    ghost use Rattle.std.specs.Prelude.{codes, [], ◌==◌, if◌then◌else◌};

    ghost frame_of = { λ _ place. record {
      name = if place == 0 then codes "main" else (if place == 1 then codes "foo" else []);
      file = if place == 2 then codes "foo.c" else [];
      line = 0;
    } };

    fn frame(&self, place: u64) -> Frame<'_> {
        let name = if place == 0 {
            "main"
        } else if place == 1 {
            "foo"
        } else {
            ""
        };
        let file = if place == 2 { "foo.c" } else { "" };
        Frame {
            name,
            file: FileText::of_name(file),
            line: 0,
        }
    }
}

fn stack(alloc: Global, places: &[u64]) -> Result<Option<Places>, AllocError> {
    Ok(Some(Items::from_vec(Vec::from_slice(alloc, places)?)))
}

#[test]
fn stacks(rt: HostRuntime) -> Result<(), Fail> {
    let alloc = rt.alloc();
    let file = b" # two\nthread:*\nrace_top:^foo$\r\n\trace: foo\nrace:foo.c \n";
    let Ok(rules) = Rules::read(alloc, file) else {
        return Err(Fail::from("refused"));
    };
    let inner = stack(alloc, [0, 1].as_slice())?;
    let top = stack(alloc, [1, 0].as_slice())?;
    let filed = stack(alloc, [3, 0, 2].as_slice())?;
    assert_eq!(rt; first_met(&rules, &FourPlaces, &inner, &None), None);
    assert_eq!(rt; first_met(&rules, &FourPlaces, &inner, &top), Some(1));
    assert_eq!(rt; first_met(&rules, &FourPlaces, &filed, &inner), Some(3));
    assert_eq!(rt; first_met(&rules, &FourPlaces, &filed, &top), Some(1));
    assert_eq!(rt; first_met(&rules, &FourPlaces, &None, &None), None);
    assert_eq!(rt;
        first_met(&Rules::none(alloc), &FourPlaces, &top, &top),
        None
    );
    Ok(())
}
