//! The style of the page. Its text is escaped like any other, so it has none of the five bytes `<`, `>`, `&`, `"`
//! and `'`. Nothing is said by a colour alone, and colours are told apart without seeing red and green.

/// The style.
pub(crate) const STYLE: &str = "
:root {
  color-scheme: light dark;
  --paper: #fdfcfa; --card: #ffffff; --ink: #1b1b1d; --soft: #595c61; --line: #d9d6d0;
  --shade: #f3f1ec; --edge: #8a8680; --good: #0a5c8c; --bad: #a8380a; --fill: #2a7fb8;
  --over: #c4501b; --track: #ebe7df;
  --serif: Iowan Old Style, Palatino Linotype, Palatino, Georgia, Noto Serif, Liberation Serif,
    serif;
  --sans: system-ui, -apple-system, Segoe UI, Roboto, Noto Sans, Liberation Sans, Arial, sans-serif;
}
@media (prefers-color-scheme: dark) {
  :root {
    --paper: #15171a; --card: #1c1f23; --ink: #eceae6; --soft: #aaaeb4; --line: #373b41;
    --shade: #262a30; --edge: #7d828a; --good: #7cc0ee; --bad: #ffa673; --fill: #5aa9dc;
    --over: #f08a4f; --track: #2b3036;
  }
}
* { box-sizing: border-box; }
html { -webkit-text-size-adjust: 100%; text-size-adjust: 100%; }
body {
  margin: 0 auto; padding: 1.25rem 1rem 3rem; max-width: 62rem; background: var(--paper);
  color: var(--ink); font: 1.0625rem/1.55 var(--sans); overflow-wrap: anywhere;
}
h1, h2, h3 {
  font-family: var(--serif); line-height: 1.18; text-wrap: balance; overflow-wrap: anywhere;
}
h1 { font-size: clamp(1.75rem, 1.2rem + 2.4vw, 2.75rem); margin: .2rem 0 .9rem; }
h2 { font-size: clamp(1.35rem, 1.1rem + 1vw, 1.75rem); margin: 0 0 .75rem; }
h3 { font-size: 1.125rem; margin: 0; }
p, ul { margin: .6rem 0; max-width: 40rem; }
ul { padding-left: 1.25rem; }
section, footer { margin-top: 3rem; padding-top: 1.1rem; border-top: 1px solid var(--line); }
bdi, code { unicode-bidi: isolate; }
.kicker { margin: 0; color: var(--soft); font-size: .9rem; }
.soft { color: var(--soft); }
.note { color: var(--soft); font-size: .9rem; }
/* What others wrote inside a sentence is seen to begin and to end. */
.named {
  background: var(--shade); box-shadow: 0 0 0 1px var(--line); padding: 0 .25em;
  border-radius: .15em;
}
dt { color: var(--soft); font-size: .85rem; line-height: 1.3; }
dd { margin: 0; }
.facts { display: flex; flex-wrap: wrap; gap: .35rem 1.75rem; margin: 0; }
.facts div { min-width: 0; }
.answer {
  margin-top: 1.75rem; padding: 1.25rem 1.25rem 1rem; border: 1px solid var(--line);
  border-top: .4rem solid var(--good); background: var(--card);
}
.bad { border-top: .6rem double var(--bad); }
.answer h2 {
  font-size: clamp(1.6rem, 1.2rem + 1.8vw, 2.3rem); margin: 0 0 .5rem; color: var(--good);
}
.bad h2 { color: var(--bad); }
.neither { border-top-color: var(--edge); }
.neither h2 { color: var(--ink); }
.answer p { max-width: 46rem; }
.why { font-size: 1.15rem; }
.caution { border-left: .25rem solid var(--bad); padding-left: .9rem; }
.asked {
  margin: 1rem 0 0; padding: .8rem 0 0; border-top: 1px solid var(--line); list-style: none;
  max-width: none; font-size: .95rem; color: var(--soft);
}
.asked li { margin: .2rem 0; }
.stable { color: var(--ink); font-size: 1.05em; }
.tiles { display: flex; flex-wrap: wrap; gap: 1rem 1.5rem; margin: 0 0 1.5rem; }
.tiles div { flex: 1 1 9.5rem; }
.tiles dd {
  font: 700 clamp(1.2rem, 6vw, 1.6rem)/1.2 var(--serif); white-space: nowrap;
  font-variant-numeric: tabular-nums lining-nums;
}
.sub { display: block; font: .85rem/1.35 var(--sans); color: var(--soft); white-space: normal; }
.chart { margin: 1.1rem 0; max-width: 46rem; }
.chart p { margin: 0 0 .3rem; font-size: .95rem; max-width: none; }
.bar {
  position: relative; display: flex; height: 1.15rem; background: var(--track); overflow: hidden;
  box-shadow: inset 0 0 0 1px var(--edge);
}
.part { flex: none; height: 100%; width: calc(var(--share) * 1%); background: var(--fill); }
.over .part {
  background: repeating-linear-gradient(45deg, var(--over) 0 6px, var(--card) 6px 8px);
}
.mark {
  position: absolute; top: 0; bottom: 0; left: 75%; width: 3px; margin-left: -1.5px;
  background: var(--ink); box-shadow: 0 0 0 1px var(--card);
}
.cut {
  position: absolute; right: 0; top: 0; bottom: 0; padding: 0 .25rem; background: var(--card);
  font-size: .85rem; line-height: 1.15rem; box-shadow: inset 0 0 0 1px var(--edge);
}
.key {
  display: flex; flex-wrap: wrap; gap: .1rem 1.5rem; margin: .35rem 0 0; padding: 0;
  list-style: none; font-size: .9rem; max-width: none;
}
.patch {
  display: inline-block; width: .8rem; height: .8rem; margin-right: .4rem;
  vertical-align: -.06rem; background: var(--fill); box-shadow: inset 0 0 0 1px var(--edge);
}
.rest { background: var(--track); }
.beyond { background: repeating-linear-gradient(45deg, var(--over) 0 3px, var(--card) 3px 4px); }
.sort {
  border: 0; margin: .25rem 0 .75rem; padding: 0; font-size: .9rem; display: flex;
  flex-wrap: wrap; gap: .25rem .5rem; align-items: baseline; min-width: 0;
}
.sort legend { float: left; padding: 0; color: var(--soft); }
.sort label {
  position: relative; padding: .15rem .7rem; border: 1px solid var(--edge); border-radius: 1rem;
  cursor: pointer;
}
.sort input { position: absolute; inset: 0; opacity: 0; margin: 0; cursor: pointer; }
.sort label:has(input:checked) {
  background: var(--ink); color: var(--paper); border-color: var(--ink);
}
.sort label:has(input:focus-visible) { outline: 3px solid var(--fill); outline-offset: 2px; }
@supports not selector(:has(*)) { .sort { display: none; } }
.sorted:has(.dearest:checked) tbody tr { order: var(--cost); }
.sorted:has(.supported:checked) tbody tr { order: var(--supporters); }
/* A column is as wide as its longest number, in all rows. */
table {
  display: grid; gap: 0 1.1rem; font-size: .97rem;
  grid-template-columns: minmax(0, 2.4fr) repeat(3, minmax(min-content, 1fr)) minmax(0, 2.6fr);
}
thead, tbody, tr { display: grid; grid-column: 1 / -1; grid-template-columns: subgrid; }
tr { padding: .65rem 0; border-bottom: 1px solid var(--line); align-items: start; }
th, td { padding: 0; min-width: 0; text-align: left; font-weight: normal; }
thead tr {
  border-bottom: 2px solid var(--edge); color: var(--soft); font-size: .85rem; line-height: 1.3;
  align-items: end; padding: .3rem 0;
}
.number {
  text-align: right; font-variant-numeric: tabular-nums; white-space: nowrap; min-width: 5.5rem;
}
thead .number { white-space: normal; }
.name { display: block; font-weight: 600; line-height: 1.35; }
.id { display: block; color: var(--soft); font-size: .85rem; }
.verdict { display: block; margin-top: .2rem; font-size: .9rem; line-height: 1.35; }
.demand {
  grid-template-columns: minmax(0, 2.4fr) minmax(min-content, 1fr) minmax(7rem, 1fr) minmax(0, 2.6fr);
}
.short {
  grid-template-columns:
    minmax(0, 2.2fr) repeat(2, minmax(min-content, 1fr)) minmax(7rem, 1fr) minmax(min-content, 1fr)
    minmax(0, 2.2fr);
}
.fails { color: var(--bad); font-weight: 700; }
.head { display: none; }
.conditions { list-style: none; margin: 0; padding: 0; max-width: none; }
.conditions li {
  display: grid; grid-template-columns: 15rem minmax(0, 1fr); gap: .2rem 1.75rem;
  padding: 1rem 0; border-bottom: 1px solid var(--line);
}
.conditions p { margin: 0 0 .35rem; }
.letter { color: var(--soft); font-size: .85rem; }
.state {
  display: inline-block; margin-top: .3rem; padding: .05rem .6rem; border: 1px solid;
  border-radius: 1rem; font-size: .88rem; font-weight: 600; color: var(--good);
}
.state.fails { color: var(--bad); border-width: 2px; }
.state.unasked { color: var(--soft); font-weight: 400; }
.words dt { color: var(--ink); font-size: 1rem; font-weight: 600; margin-top: .7rem; }
.words dd { max-width: 40rem; }
.claim { border-left: .25rem solid var(--edge); padding-left: .9rem; }
.files { margin: 0 0 1rem; }
.files div { padding: .6rem 0; border-bottom: 1px solid var(--line); }
code {
  font-family: ui-monospace, SFMono-Regular, Menlo, Consolas, Liberation Mono, DejaVu Sans Mono,
    monospace;
  font-size: .88em; white-space: pre-wrap;
}
.bar, .bar *, .patch {
  print-color-adjust: exact; -webkit-print-color-adjust: exact; forced-color-adjust: none;
}
tr, .answer, .chart, .conditions li, .tiles div { break-inside: avoid; }
h2, h2 + p, h3, thead, dt { break-after: avoid; }
@media (max-width: 46rem) {
  body { font-size: 1rem; }
  thead {
    position: absolute; width: 1px; height: 1px; overflow: hidden; clip-path: inset(50%);
    white-space: nowrap;
  }
  table, tbody { display: flex; flex-direction: column; }
  tr {
    display: flex; flex-wrap: wrap; gap: .35rem .75rem; padding: .9rem 0; align-items: end;
  }
  th, td { flex: 1 1 5.5rem; }
  th:first-child, td:last-child { flex: 1 1 100%; }
  .number { text-align: left; min-width: auto; }
  .head {
    display: block; white-space: normal; color: var(--soft); font-size: .8rem; line-height: 1.25;
  }
  .conditions li { grid-template-columns: minmax(0, 1fr); }
  .answer { padding: 1rem .9rem .8rem; }
}
@page {
  margin: 18mm 16mm 20mm;
  @bottom-right { content: counter(page); font: 9pt sans-serif; }
}
@media print {
  :root {
    --paper: #ffffff; --card: #ffffff; --ink: #000000; --soft: #444444; --line: #bbbbbb;
    --shade: #f4f4f4; --edge: #666666; --good: #0a5c8c; --bad: #a8380a; --fill: #2a7fb8;
    --over: #c4501b; --track: #eeeeee;
  }
  body { font-size: 10.5pt; padding: 0; max-width: none; }
  h1 { font-size: 22pt; }
  .answer h2 { font-size: 19pt; }
  .tiles dd { font-size: 15pt; }
  .sort, .head { display: none; }
  section, footer { margin-top: 1.6rem; }
  /* As a table its heads stand on each sheet. */
  table { display: table; table-layout: fixed; width: 100%; border-collapse: collapse; }
  thead {
    display: table-header-group; position: static; width: auto; height: auto; overflow: visible;
    clip-path: none; white-space: normal;
  }
  tbody { display: table-row-group; }
  tr, thead tr { display: table-row; }
  th, td {
    display: table-cell; padding: .5rem .9rem .5rem 0; vertical-align: top;
    border-bottom: 1px solid var(--line);
  }
  th, td, .verdict { font-size: 9.5pt; }
  th:first-child { width: 28%; }
  th:last-child, td:last-child { padding-right: 0; width: 32%; }
  thead th { vertical-align: bottom; font-size: 8.5pt; hyphens: auto; }
  .number { text-align: right; white-space: normal; min-width: 0; }
}
";
