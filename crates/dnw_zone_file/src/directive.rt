//! Words of entries that begin with `$`.
ghost use Rattle.std.specs.Prelude.{◌≡◌, MatchOption};
ghost use Rattle.dnw_zone_file.specs.declared.directive.Directive.{Directive};
ghost use Rattle.dnw_zone_file.specs.Directives.{IsDirective};

/// What an entry that begins with `$` is.
#[derive(Clone, Copy)]
pub enum Directive {
    /// `$ORIGIN` (RFC 1035, section 5.1).
    Origin,
    /// `$INCLUDE` (RFC 1035, section 5.1).
    Include,
    /// `$TTL` (RFC 2308, section 4).
    Ttl,
    /// `$GENERATE`, of BIND.
    Generate,
}

/// Returns what an entry is by its first word, in upper or lower case.
pub(crate) fn directive_of(word: &[u8]) -> Option<Directive>
    ensures { MatchOption result ((directive : Directive) → ¬ (IsDirective word.now directive)) (IsDirective word.now) }
{
    if word.eq_ignore_ascii_case(b"$ORIGIN") {
        Some(Directive::Origin)
    } else if word.eq_ignore_ascii_case(b"$INCLUDE") {
        Some(Directive::Include)
    } else if word.eq_ignore_ascii_case(b"$TTL") {
        Some(Directive::Ttl)
    } else if word.eq_ignore_ascii_case(b"$GENERATE") {
        Some(Directive::Generate)
    } else {
        None
    }
}
