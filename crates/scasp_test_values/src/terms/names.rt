//! Tables of names.
use scasp_name::{NIL, NameId, Names, PAIR};
use std::hash::RandomState;
use std::process::Abort;
use std::test::Fail;

/// Texts that are entered, and their places.
static PLACES: [(&str, u64); 6] = [("a", 2), ("b", 3), ("a", 2), ("[|]", 1), ("[]", 0), ("", 4)];

/// The texts of the table, by place.
static TEXTS: [&str; 5] = ["[]", "[|]", "a", "b", ""];

fn enter(rt: &impl Abort, names: &mut Names) -> Result<(), Fail> {
    for (text, place) in &PLACES {
        assert_eq!(rt; names.intern(text)?.place(), *place);
        assert_eq!(rt; names.find(text), Some(NameId::new(*place)));
    }
    Ok(())
}

fn look_up(rt: &impl Abort, names: &Names) {
    assert_eq!(rt; names.len(), 5);
    assert_eq!(rt; names.find("c"), None);
    for (place, text) in TEXTS.iter().enumerate() {
        assert!(rt; (place as u64) < names.len());
        assert!(rt; names.text(NameId::new(place as u64)) == *text);
    }
}

#[test]
fn names_have_the_places_of_their_texts(rt: HostRuntime) -> Result<(), Fail> {
    let mut names = Names::new(rt.alloc(), RandomState::new(&rt)?)?;
    enter(&rt, &mut names)?;
    look_up(&rt, &names);
    Ok(())
}

#[test]
fn the_first_names_are_those_of_lists(rt: HostRuntime) {
    assert_eq!(rt; (NIL.place(), PAIR.place()), (0, 1));
}
