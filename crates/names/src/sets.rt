//! The sets of names that the rules speak of (HTML Standard, `#the-insertion-mode`, `#the-stack-of-open-elements`,
//! `#closing-elements-that-have-implied-end-tags`, `#parsing-main-inbody` and `#serialising-html-fragments`): a table of bits by the name.

ghost use Rattle.std.specs.Prelude.{◌≡◌};
ghost use Rattle.names.specs.Sets.{has_implied_end, is_cell, is_formatting, is_heading, is_special, is_table_section, is_void, may_stay_open, stops_button_scope, stops_item, stops_list_item_scope, stops_scope, stops_table_scope, tells_mode};
ghost use Rattle.names.specs.TagSets.{has_set};
ghost use Rattle.names.specs.declared.sets.TheConstants as bit;

use crate::tag::Tag;

/// The bit of the special names (`#the-stack-of-open-elements`).
pub const SPECIAL: u16 = 1 << 0;
/// The bit of the formatting names (`#the-stack-of-open-elements`).
pub const FORMATTING: u16 = 1 << 1;
/// The bit of the names whose end tags are implied (`#closing-elements-that-have-implied-end-tags`).
pub const IMPLIED_END: u16 = 1 << 2;
/// The bit of the names that stop a search in scope (`#the-stack-of-open-elements`).
pub const SCOPE: u16 = 1 << 3;
/// The bit of the names that stop a search in list item scope.
pub const LIST_ITEM_SCOPE: u16 = 1 << 4;
/// The bit of the names that stop a search in button scope.
pub const BUTTON_SCOPE: u16 = 1 << 5;
/// The bit of the names that stop a search in table scope.
pub const TABLE_SCOPE: u16 = 1 << 6;
/// The bit of the names that stop the search for an open li, dd or dt (`#parsing-main-inbody`).
pub const ITEM_STOP: u16 = 1 << 7;
/// The bit of the names of elements that may be open at the end of the body (`#parsing-main-inbody`).
pub const MAY_STAY_OPEN: u16 = 1 << 8;
/// The bit of h1 to h6.
pub const HEADING: u16 = 1 << 9;
/// The bit of tbody, tfoot and thead.
pub const TABLE_SECTION: u16 = 1 << 10;
/// The bit of td and th.
pub const CELL: u16 = 1 << 11;
/// The bit of the names that determine the insertion mode when it is reset (`#the-insertion-mode`).
pub const TELLS_MODE: u16 = 1 << 12;
/// The bit of the names that are written without an end tag (`#serialising-html-fragments`).
pub const VOID: u16 = 1 << 13;

/// What stops a search in scope also stops one in list item scope and one in button scope.
const SCOPES: u16 = SCOPE | LIST_ITEM_SCOPE | BUTTON_SCOPE;
/// The bits of every special name but address, div and p.
const STOP: u16 = SPECIAL | ITEM_STOP;

/// The bits of each name, in the order of `Tag`.
#[rattlefmt::skip]
static SETS: [u16; 128] = [
    FORMATTING /* a */, 0 /* abbr */, SPECIAL /* address */, SCOPES | STOP /* applet */,
    STOP | VOID /* area */, STOP /* article */, STOP /* aside */, FORMATTING /* b */,
    STOP | VOID /* base */, STOP | VOID /* basefont */, 0 /* bdi */, 0 /* bdo */,
    STOP | VOID /* bgsound */, FORMATTING /* big */, STOP /* blockquote */,
    STOP | MAY_STAY_OPEN | TELLS_MODE /* body */, STOP | VOID /* br */,
    BUTTON_SCOPE | STOP /* button */, SCOPES | STOP | TELLS_MODE /* caption */, STOP /* center */,
    0 /* cite */, FORMATTING /* code */, STOP | VOID /* col */, STOP | TELLS_MODE /* colgroup */,
    0 /* data */, STOP | IMPLIED_END | MAY_STAY_OPEN /* dd */, 0 /* del */, STOP /* details */,
    0 /* dfn */, 0 /* dialog */, STOP /* dir */, SPECIAL /* div */, STOP /* dl */,
    STOP | IMPLIED_END | MAY_STAY_OPEN /* dt */, FORMATTING /* em */, STOP | VOID /* embed */,
    STOP /* fieldset */, STOP /* figcaption */, STOP /* figure */, FORMATTING /* font */,
    STOP /* footer */, STOP /* form */, 0 /* frame */, 0 /* frameset */, STOP | HEADING /* h1 */,
    STOP | HEADING /* h2 */, STOP | HEADING /* h3 */, STOP | HEADING /* h4 */,
    STOP | HEADING /* h5 */, STOP | HEADING /* h6 */, STOP /* head */, STOP /* header */,
    STOP /* hgroup */, STOP | VOID /* hr */, SCOPES | TABLE_SCOPE | STOP | MAY_STAY_OPEN /* html */,
    FORMATTING /* i */, STOP /* iframe */, 0 /* image */, STOP | VOID /* img */,
    STOP | VOID /* input */, 0 /* ins */, 0 /* kbd */, 0 /* keygen */, 0 /* label */,
    STOP | IMPLIED_END | MAY_STAY_OPEN /* li */, STOP | VOID /* link */, STOP /* listing */,
    STOP /* main */, 0 /* mark */, SCOPES | STOP /* marquee */, 0 /* math */, STOP /* menu */,
    STOP | VOID /* meta */, STOP /* nav */, FORMATTING /* nobr */, STOP /* noembed */,
    STOP /* noframes */, STOP /* noscript */, SCOPES | STOP /* object */,
    LIST_ITEM_SCOPE | STOP /* ol */, 0 /* optgroup */, 0 /* option */, 0 /* output */,
    SPECIAL | IMPLIED_END | MAY_STAY_OPEN /* p */, STOP | VOID /* param */, STOP /* plaintext */,
    STOP /* pre */, 0 /* q */, IMPLIED_END | MAY_STAY_OPEN /* rb */,
    IMPLIED_END | MAY_STAY_OPEN /* rp */, IMPLIED_END | MAY_STAY_OPEN /* rt */,
    IMPLIED_END | MAY_STAY_OPEN /* rtc */, 0 /* ruby */, FORMATTING /* s */, 0 /* samp */,
    STOP /* script */, STOP /* search */, STOP /* section */, 0 /* select */,
    FORMATTING /* small */, STOP | VOID /* source */, 0 /* span */, FORMATTING /* strike */,
    FORMATTING /* strong */, STOP /* style */, 0 /* sub */, STOP /* summary */, 0 /* sup */,
    0 /* svg */, SCOPES | TABLE_SCOPE | STOP | TELLS_MODE /* table */,
    STOP | MAY_STAY_OPEN | TABLE_SECTION | TELLS_MODE /* tbody */,
    SCOPES | STOP | MAY_STAY_OPEN | CELL | TELLS_MODE /* td */, 0 /* template */,
    STOP /* textarea */, STOP | MAY_STAY_OPEN | TABLE_SECTION | TELLS_MODE /* tfoot */,
    SCOPES | STOP | MAY_STAY_OPEN | CELL | TELLS_MODE /* th */,
    STOP | MAY_STAY_OPEN | TABLE_SECTION | TELLS_MODE /* thead */, 0 /* time */, STOP /* title */,
    STOP | MAY_STAY_OPEN | TELLS_MODE /* tr */, STOP | VOID /* track */, FORMATTING /* tt */,
    FORMATTING /* u */, LIST_ITEM_SCOPE | STOP /* ul */, 0 /* var */, STOP | VOID /* wbr */,
    STOP /* xmp */, 0 /* any other name */,
];

impl Tag {
    /// The bits of the sets that hold the name.
    #[inline(always)]
    pub fn sets(self) -> u16
        ensures special { has_set result bit.SPECIAL ≡ is_special self }
        ensures formatting { has_set result bit.FORMATTING ≡ is_formatting self }
        ensures implied_end { has_set result bit.IMPLIED_END ≡ has_implied_end self }
        ensures scope { has_set result bit.SCOPE ≡ stops_scope self }
        ensures list_item_scope { has_set result bit.LIST_ITEM_SCOPE ≡ stops_list_item_scope self }
        ensures button_scope { has_set result bit.BUTTON_SCOPE ≡ stops_button_scope self }
        ensures table_scope { has_set result bit.TABLE_SCOPE ≡ stops_table_scope self }
        ensures item_stop { has_set result bit.ITEM_STOP ≡ stops_item self }
        ensures may_stay_open { has_set result bit.MAY_STAY_OPEN ≡ may_stay_open self }
        ensures heading { has_set result bit.HEADING ≡ is_heading self }
        ensures table_section { has_set result bit.TABLE_SECTION ≡ is_table_section self }
        ensures cell { has_set result bit.CELL ≡ is_cell self }
        ensures tells_mode { has_set result bit.TELLS_MODE ≡ tells_mode self }
        ensures void { has_set result bit.VOID ≡ is_void self }
    {
        SETS[self as usize]
    }

    /// Whether the name is special (HTML Standard, `#the-stack-of-open-elements`).
    #[inline(always)]
    pub fn is_special(self) -> bool
        ensures { result ≡ is_special self }
    {
        self.sets() & SPECIAL != 0
    }

    /// Whether the name is a formatting one (`#the-stack-of-open-elements`).
    #[inline(always)]
    pub fn is_formatting(self) -> bool
        ensures { result ≡ is_formatting self }
    {
        self.sets() & FORMATTING != 0
    }

    /// Whether an end tag of the name is generated where end tags are implied (`#closing-elements-that-have-implied-end-tags`).
    #[inline(always)]
    pub fn has_implied_end(self) -> bool
        ensures { result ≡ has_implied_end self }
    {
        self.sets() & IMPLIED_END != 0
    }

    /// Whether the name is one of h1 to h6.
    #[inline(always)]
    pub fn is_heading(self) -> bool
        ensures { result ≡ is_heading self }
    {
        self.sets() & HEADING != 0
    }

    /// Whether the name is tbody, tfoot or thead.
    #[inline(always)]
    pub fn is_table_section(self) -> bool
        ensures { result ≡ is_table_section self }
    {
        self.sets() & TABLE_SECTION != 0
    }

    /// Whether an element of the name is written without an end tag (`#serialising-html-fragments`).
    #[inline(always)]
    pub fn is_void(self) -> bool
        ensures { result ≡ is_void self }
    {
        self.sets() & VOID != 0
    }
}
