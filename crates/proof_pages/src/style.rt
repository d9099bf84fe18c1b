//! The style of pages: light and dark, for wide screens and narrow ones. The variables of the first
//! eight CSS classes have colours of their own; those of any later class have the colour of the
//! first.

ghost use Rattle.std.specs.Prelude.{◌≡◌};

/// Returns the style sheet that the pages of a site share.
pub fn style_sheet() -> &'static [u8]
    ensures { result.now ≡ STYLE_SHEET.now }
{
    STYLE_SHEET
}

/// The style of every page, in this order: colours of a light page, of a dark page; text and
/// tables; lists; the colours of the classes; narrow screens. In a table only an expression may be
/// broken inside a word.
pub const STYLE_SHEET: &[u8] =
    b":root{color-scheme:light dark;--page:#fdfdfc;--ink:#1c1c21;--quiet:#63636e;--line:#dedee4;--mark:#fdf3c8;--code:#f1f1ee;--link:#0b57d0;--k1:#1d4ed8;--k2:#b91c1c;--k3:#a21caf;--k4:#15803d;--k5:#b45309;--k6:#0e7490;--k7:#6d28d9;--k8:#4d7c0f}\n@media(prefers-color-scheme:dark){:root{--page:#17181b;--ink:#e7e7ec;--quiet:#a0a0ab;--line:#35363c;--mark:#3f3a1f;--code:#26272c;--link:#8ab4f8;--k1:#8ab4ff;--k2:#ff8a80;--k3:#f0a6ff;--k4:#7ee2a0;--k5:#ffc27a;--k6:#7adbe8;--k7:#c3a6ff;--k8:#c5e384}}\nbody{margin:0 auto;max-width:70rem;padding:1rem;background:var(--page);color:var(--ink);font:1rem/1.5 system-ui,sans-serif}\nh1,.expr,td:last-child,li{overflow-wrap:anywhere}\nh1{margin:.5rem 0}\nh2{font-size:1.05rem;margin:1.6rem 0 .4rem}\n.expr,td,li,.legend var{font-family:ui-monospace,monospace}\n.expr{font-size:1.2rem}\n.about{max-width:45rem}\n.legend{color:var(--quiet)}\na{color:var(--link)}\ntable{border-collapse:collapse;width:100%}\nth,td{text-align:left;vertical-align:top;padding:.2rem .8rem .2rem 0;border-bottom:1px solid var(--line)}\nth{color:var(--quiet);font-weight:normal}\ntd:last-child{width:70%}\ntr:target{background:var(--mark)}\nul{list-style:none;padding:0;margin:0;display:flex;flex-wrap:wrap;gap:.2rem 2rem}\n.groups{gap:.4rem}.groups li{border:1px solid var(--line);border-radius:.3rem;padding:0 .5rem}\n.parts{display:block}.parts li{font-family:inherit}.h1{font-weight:bold}.parts .h1{margin-top:1rem}.parts .h2{margin-left:1.5rem}.parts .h3{margin-left:3rem}.parts .h4{margin-left:4.5rem}\ntr th[colspan]{color:var(--ink);font-weight:bold;padding-top:1rem}\ncode{font-family:ui-monospace,monospace;font-size:.95em;background:var(--code);border-radius:.2rem;padding:0 .2rem}\nsummary{cursor:pointer;margin:1rem 0 .4rem}\nvar{color:var(--k1)}.k2{color:var(--k2)}.k3{color:var(--k3)}.k4{color:var(--k4)}.k5{color:var(--k5)}.k6{color:var(--k6)}.k7{color:var(--k7)}.k8{color:var(--k8)}\n@media(max-width:40rem){thead{display:none}tr{display:flex;flex-wrap:wrap;column-gap:1rem;border-bottom:1px solid var(--line)}td,td:last-child,th[colspan]{border:0;padding:.1rem 0;width:auto}td:last-child{flex-basis:100%}td:empty{display:none}}\n";
