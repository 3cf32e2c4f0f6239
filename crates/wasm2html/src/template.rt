//! The HTML and the style sheet of the page. The file `stdout` of the crate contains the same text.

/// The start of the page, up to the style sheet.
pub const HEAD: &str = r##"<!DOCTYPE html>
<html lang="en">
<head>
<meta charset="utf-8">
<meta name="viewport" content="width=device-width, initial-scale=1">
<meta http-equiv="Content-Security-Policy" content="default-src 'none'; style-src 'unsafe-inline'; script-src 'unsafe-inline'; base-uri 'none'; form-action 'none'">
<title>WebAssembly module</title>
<style>
"##;

/// The style sheet.
pub const STYLE: &str = r##":root {
  color-scheme: light dark;
  --page: light-dark(#ffffff, #16181d);
  --panel: light-dark(#f5f6f8, #1e2128);
  --border: light-dark(#d9dce2, #343943);
  --ink: light-dark(#1f2328, #d7dae0);
  --muted: light-dark(#656d78, #8f98a6);
  --accent: light-dark(#0757b8, #7db7ff);
  --target: light-dark(#fff3b8, #4a4118);
  --literal: light-dark(#a03010, #f0a27a);
  --name: light-dark(#7a2c9c, #d4a2f0);
  --keyword: light-dark(#0b4fb3, #82b4ff);
  --type: light-dark(#12703c, #7fd49b);
  --control: light-dark(#b01458, #ff8fb8);
  --operator: light-dark(#30363d, #c3c9d3);
  --row: 20px;
  --bar: 48px;
  --mono: ui-monospace, "SF Mono", Menlo, Consolas, "DejaVu Sans Mono", monospace;
}
:root[data-theme="light"] { color-scheme: light; }
:root[data-theme="dark"] { color-scheme: dark; }
* { box-sizing: border-box; }
body {
  margin: 0; display: grid; grid-template: var(--bar) 1fr / 300px minmax(0, 1fr);
  background: var(--page); color: var(--ink); font: 14px/var(--row) system-ui, sans-serif;
}
a { color: inherit; text-decoration: none; }
a:hover { text-decoration: underline; }
:focus-visible { outline: 2px solid var(--accent); outline-offset: -1px; }
button, input { height: 30px; border: 1px solid var(--border); border-radius: 6px; background: var(--page); color: inherit; font: inherit; }
button { padding: 0 10px; cursor: pointer; white-space: nowrap; }
button:hover { border-color: var(--accent); }
button[aria-pressed="true"] { border-color: var(--accent); color: var(--accent); }
input { padding: 0 8px; min-width: 0; }

header {
  grid-column: 1 / -1; position: sticky; top: 0; z-index: 3; display: flex; align-items: center; gap: 8px;
  height: var(--bar); padding: 0 12px; background: var(--panel); border-bottom: 1px solid var(--border);
}
h1 { flex: 1; margin: 0; min-width: 0; overflow: hidden; text-overflow: ellipsis; white-space: nowrap; font-size: 16px; }
h1 small { margin-left: 6px; color: var(--muted); font-size: 13px; font-weight: normal; }
#find { display: flex; align-items: center; gap: 6px; }
#find-text { width: 200px; }
#find-result { color: var(--muted); font-size: 12px; white-space: nowrap; }
#toggle-contents { display: none; }

#contents {
  position: sticky; top: var(--bar); height: calc(100vh - var(--bar)); overflow: auto; overscroll-behavior: contain;
  padding: 0 0 24px; background: var(--panel); border-right: 1px solid var(--border);
}
#contents > input {
  position: sticky; top: 8px; z-index: 1; display: block; width: calc(100% - 24px); margin: 8px 12px;
  box-shadow: 0 0 0 8px var(--panel);
}
#contents summary { padding: 4px 12px; cursor: pointer; font-weight: 600; }
#contents summary small, .row small { color: var(--muted); font-size: 12px; font-weight: normal; }
.row { display: flex; gap: 8px; height: var(--row); padding: 0 12px; white-space: pre; font: 12px/var(--row) var(--mono); }
.row:hover { background: var(--page); text-decoration: none; }
.row b { min-width: 4ch; color: var(--muted); font-weight: normal; text-align: right; }
.row span { flex: 1; overflow: hidden; text-overflow: ellipsis; }
.row small { font-family: system-ui, sans-serif; }
.note { margin: 4px 12px; color: var(--muted); font-size: 12px; }

main { min-width: 0; padding: 8px 0 60vh; font: 13px/var(--row) var(--mono); tab-size: 4; }
.scroll { overflow-x: auto; }
.lines { width: max-content; min-width: 100%; }
.line { display: flex; height: var(--row); white-space: pre; scroll-margin-top: calc(var(--bar) + 40px); }
.offset {
  position: sticky; left: 0; flex: none; width: calc(var(--digits) * 1ch + 36px); padding-right: 14px; text-align: right;
  background: var(--page); color: var(--muted); user-select: none;
}
.hide-offsets .offset { display: none; }
.hide-offsets .line { padding-left: 22px; }
.text { flex: 1 0 auto; padding-right: 16px; }
.target, .target .offset { background: var(--target); }

main details { margin: 0; }
main summary { position: relative; display: flex; cursor: pointer; list-style: none; scroll-margin-top: var(--bar); }
main summary::-webkit-details-marker { display: none; }
main summary::before {
  content: ""; position: absolute; z-index: 1; top: 6px; left: 9px; border: 4px solid transparent; border-left: 6px solid var(--muted);
}
main details[open] > summary::before { top: 8px; left: 6px; transform: rotate(90deg); transform-origin: 4px 4px; top: 7px; }
main summary .line { flex: 1; min-width: 0; }
main summary .text { flex: 1; min-width: 0; overflow: hidden; text-overflow: ellipsis; padding-right: 0; }
main details[open] > summary { position: sticky; top: var(--bar); z-index: 2; background: var(--page); border-bottom: 1px solid var(--border); }
main details[open] > summary .line { height: auto; }
main details[open] > summary .text { white-space: pre-wrap; overflow-wrap: anywhere; padding-left: 6ch; text-indent: -6ch; }
main summary:hover, main summary:hover .offset { background: var(--panel); }
main summary:has(.target), main summary .target .offset { background: var(--target) !important; }
main summary > small { flex: none; padding: 0 12px; color: var(--muted); font: 12px/var(--row) system-ui, sans-serif; }

.literal { color: var(--literal); }
.name { color: var(--name); }
.keyword { color: var(--keyword); }
.type { color: var(--type); }
.comment { color: var(--muted); }
.operator { color: var(--operator); }
.control { color: var(--control); }
a.name { text-decoration: underline; text-decoration-color: color-mix(in srgb, currentColor 35%, transparent); text-underline-offset: 3px; }
a.name:hover { text-decoration-color: currentColor; }
.more { height: 18px; margin: 1px 8px; padding: 0 6px; font-size: 11px; line-height: 16px; vertical-align: top; }

@media (max-width: 900px) {
  body { grid-template-columns: minmax(0, 1fr); }
  #toggle-contents { display: block; }
  #contents {
    display: none; position: fixed; z-index: 4; top: var(--bar); left: 0; width: min(340px, 88vw);
    box-shadow: 4px 0 24px rgb(0 0 0 / 30%);
  }
  .show-contents #contents { display: block; }
}
@media (max-width: 700px) {
  :root { --bar: 88px; }
  header { flex-wrap: wrap; gap: 6px; padding: 6px 8px; align-content: center; }
  header button { padding: 0 8px; }
  h1 { flex: 1 1 calc(100% - 120px); font-size: 14px; }
  #find { flex: 1 1 130px; min-width: 0; }
  #find-text { flex: 1; width: 0; }
  main { font-size: 12px; }
}
@media print {
  header, #contents { display: none; }
  body { display: block; }
}
"##;

/// The part of the page between the style sheet and the data.
pub const BODY: &str = r##"</style>
</head>
<body>
<header>
<button id="toggle-contents" aria-controls="contents" aria-expanded="false">Contents</button>
<h1><span id="title">WebAssembly module</span> <small id="size"></small></h1>
<form id="find" role="search">
<input id="find-text" type="search" placeholder="Find in the text" aria-label="Find in the text" autocomplete="off">
<output id="find-result" for="find-text"></output>
</form>
<button id="toggle-all">Open all</button>
<button id="toggle-offsets" aria-pressed="true">Offsets</button>
<button id="toggle-theme">Dark</button>
</header>
<nav id="contents" aria-label="Contents">
<input id="filter" type="search" placeholder="Name or index" aria-label="Search the contents by name or index" autocomplete="off">
<div id="lists"></div>
</nav>
<main id="text"></main>
<noscript><p>This page needs JavaScript.</p></noscript>
"##;
