// Examples at the edges, each worked out by hand.
use crate::{Rule, Ruling, Verdict, judge};

#[test]
fn the_first_that_fits_decides(rt: HostRuntime) {
    let rules = [
        Rule {
            verdict: Verdict::Deny,
            methods: b"GET",
            path: b"/admin",
        },
        Rule {
            verdict: Verdict::Allow,
            methods: b"HEAD,GET",
            path: b"/",
        },
    ];
    assert_eq!(rt; judge(&rules, b"GET", b"/Admin/x"), Ruling::Denied(0));
    assert_eq!(rt;
        judge(&rules, b"GET", b"/administration"),
        Ruling::Allowed(1)
    );
    assert_eq!(rt; judge(&rules, b"HEAD", b"/admin?x"), Ruling::Allowed(1));
    assert_eq!(rt; judge(&rules, b"POST", b"/"), Ruling::Unruled);
}

#[test]
fn parts_are_compared_whole(rt: HostRuntime) {
    let rules = [Rule {
        verdict: Verdict::Allow,
        methods: b"GET",
        path: b"/a/b",
    }];
    assert_eq!(rt; judge(&rules, b"GET", b"/A/b/c?q"), Ruling::Allowed(0));
    assert_eq!(rt; judge(&rules, b"GET", b"/a/b"), Ruling::Allowed(0));
    assert_eq!(rt; judge(&rules, b"GET", b"/a/bc"), Ruling::Unruled);
    assert_eq!(rt; judge(&rules, b"GET", b"/a?/b"), Ruling::Unruled);
    assert_eq!(rt; judge(&rules, b"GET", b""), Ruling::Unruled);
}

#[test]
fn where_no_rule_fits(rt: HostRuntime) {
    let rules = [Rule {
        verdict: Verdict::Allow,
        methods: b"-",
        path: b"/",
    }];
    assert_eq!(rt; judge(&rules, b"GET", b"/"), Ruling::Unruled);
    assert_eq!(rt; judge(&rules, b"-", b"/"), Ruling::Unruled);
    assert_eq!(rt; judge(&[], b"GET", b"/"), Ruling::Unruled);
}
