// The empty text, blanks, nesting at its limits and one beyond, and every part of a script from its beginning on.
use draft::draft::Draft;
use lexing::fault::Fault;
use reading::read::read;

// A refusal's number and place; 0 where there is none.
fn answer(r: Result<(), Fault>) -> (u8, usize) {
    match r {
        Ok(()) => (0, 0),
        Err(fault) => (fault.question.number(), fault.place),
    }
}

#[test]
fn a_script_has_a_function(rt: HostRuntime) {
    let mut draft = Draft::new();
    let blanks = [b' '; 16_385];
    assert!(rt; blanks.len() == 16_385);
    assert_eq!(rt; answer(read(b"", &mut draft)), (6, 0));
    assert_eq!(rt; answer(read(&blanks[0..16_384], &mut draft)), (6, 16_384));
    assert_eq!(rt; answer(read(&blanks, &mut draft)), (1, 0));
}

#[test]
fn blocks_nest_8_deep(rt: HostRuntime) {
    let mut draft = Draft::new();
    let eight =
        b"fun f(): int { let a = region r { let a = region r { let a = region r { let a = region r { let a = region r { let a = region r { let a = region r { 1 }; a }; a }; a }; a }; a }; a }; a }";
    let nine =
        b"fun f(): int { let a = region r { let a = region r { let a = region r { let a = region r { let a = region r { let a = region r { let a = region r { let a = region r { 1 }; a }; a }; a }; a }; a }; a }; a }; a }";
    assert_eq!(rt; answer(read(eight, &mut draft)), (0, 0));
    assert_eq!(rt; draft.table.text.len(), 186);
    assert_eq!(rt; answer(read(nine, &mut draft)), (7, 165));
    assert_eq!(rt; draft.table.text.len(), 0);
    assert_eq!(rt; draft.table.commands.len(), 0);
}

#[test]
fn lists_nest_5_deep(rt: HostRuntime) {
    let mut draft = Draft::new();
    assert_eq!(rt;
        answer(read(
            b"fun f(x: list@r(list@r(list@r(list@r(list@r(int)))))): int { 1 }",
            &mut draft,
        )),
        (0, 0)
    );
    assert_eq!(rt;
        answer(read(
            b"fun f(x: list@r(list@r(list@r(list@r(list@r(list@r(int))))))): int { 1 }",
            &mut draft,
        )),
        (7, 44)
    );
}

#[test]
fn the_first_token_that_cannot_continue(rt: HostRuntime) {
    let mut draft = Draft::new();
    assert_eq!(rt; answer(read(b"fun f(): int { 1 } x", &mut draft)), (6, 19));
    assert_eq!(rt;
        answer(read(b"fun f(): int { let a = 1; }", &mut draft)),
        (6, 26)
    );
    assert_eq!(rt;
        answer(read(b"fun f(): int { let a = 1 a }", &mut draft)),
        (6, 25)
    );
    assert_eq!(rt;
        answer(read(b"fun f(): int { let a = if 1 { 1 } { 2 }; a }", &mut draft)),
        (6, 34)
    );
    assert_eq!(rt; answer(read(b"fun f(,): int { 1 }", &mut draft)), (6, 6));
    assert_eq!(rt; answer(read(b"fun f[](): int { 1 }", &mut draft)), (6, 6));
}

// A script that uses every form: each part of it from its beginning on is refused, and the numbers and the places add up.
#[test]
fn every_part_of_a_script_is_refused(rt: HostRuntime) {
    let mut draft = Draft::new();
    let text: &[u8] =
        b"fun f[r](x: list@r(int), y: int): int { let a = add 1 -2; let n = nil@r(int); let c = cons@r(a, n); let d = call f[r](c, a); let e = call f(); print e; let i = if a { 1 } else { 2 }; let g = region q { 3 }; let h = case c { 4 } else p t { p }; h }";
    let mut numbers: u32 = 0;
    let mut places: usize = 0;
    // Each front of the text, by its length.
    for n in 0..text.len() {
        let (number, place) = answer(read(&text[0..n], &mut draft));
        assert!(rt; number != 0);
        numbers = numbers.wrapping_add(u32::from(number));
        places = places.wrapping_add(place);
    }
    assert_eq!(rt; numbers, 1_478);
    assert_eq!(rt; places, 30_347);
    assert_eq!(rt; answer(read(text, &mut draft)), (0, 0));
    assert_eq!(rt; draft.table.text.len(), 247);
}
