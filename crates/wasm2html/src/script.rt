//! The script of the page, which renders the data. The file `stdout` of the crate contains the same text.

/// The script, which is the last element of the page. It uses no library.
pub const SCRIPT: &str = r##"<script>
"use strict";
// The page's data is inert text: one element for each function, and one for each run of other fields. A line of data
// is its byte offset in hexadecimal (or nothing), a space and its text. In the text, the characters U+0001 to U+0006
// change the style until the next of them, and `%` with a character represents the character 64 places before it.
// Text of the module becomes part of the page only as the content of text nodes and the value of `title`.

/** The CSS class of each style, by its control character. U+0006 chooses none. */
const STYLES = ["", "literal", "name", "keyword", "type", "comment", ""];
const CONTROLS = /([\u0001-\u0006])/;
const ALL_CONTROLS = /[\u0001-\u0006]/g;

/** The number of rows that are rendered together. */
const ROWS_OF_CHUNK = 100;

/** The number of characters of a line that are shown at first. */
const LINE_LIMIT = 4000;

/** The number of characters at the start of a line in which the item that it defines is looked for. */
const HEAD_LIMIT = 20000;

const byId = (id) => document.getElementById(id);

/** Returns a new element with this class and content. Strings become text nodes. */
function make(tag, className, ...content) {
  const element = document.createElement(tag);
  if (className) element.className = className;
  element.append(...content);
  return element;
}

/** Returns the text that this encoded text represents. */
function decode(text) {
  return text.replace(/%(.)/g, (_, character) => String.fromCharCode(character.charCodeAt(0) - 64));
}

/** Returns the text of encoded lines, without styles. */
function plain(text) {
  return decode(text.replace(ALL_CONTROLS, ""));
}

/** A function, or a run of other fields. */
class Part {
  constructor(element) {
    this.element = element;
    this.isFunction = element.className === "function";
    this.start = parseInt(this.offset(0), 16);
  }
  /** The lines, each after a line feed, and a last line feed. */
  get data() {
    return this.element.textContent;
  }
  get lines() {
    return (this.cachedLines ??= this.data.slice(1, -1).split("\n"));
  }
  get lineCount() {
    return (this.cachedCount ??= countOf("\n", this.data) - 1);
  }
  /** Returns a line with its offset. The first line is found without splitting the text. */
  line(number) {
    if (number > 0 || this.cachedLines) return this.lines[number];
    const data = this.data;
    return data.slice(1, data.indexOf("\n", 1));
  }
  /** Returns the offset of a line in hexadecimal, or an empty string. */
  offset(number) {
    const line = this.line(number);
    return line.slice(0, line.indexOf(" "));
  }
  /** Returns the encoded text of a line. */
  text(number) {
    const line = this.line(number);
    return line.slice(line.indexOf(" ") + 1);
  }
}

/** Returns how often a character occurs in a text. */
function countOf(character, text) {
  let count = 0;
  for (let at = text.indexOf(character); at >= 0; at = text.indexOf(character, at + 1)) count++;
  return count;
}

// ---- The items of the module ----

const parts = [...document.querySelectorAll("script.function, script.fields")].map((element) => new Part(element));

/** Items by anchor, such as `func3`. An item is `{ kind, index, id, name, part, line }`. */
const items = new Map();

/** Indices of items by kind and identifier, such as `func $main`. */
const indices = new Map();

/** The entries of the contents, by title. An entry is `{ index, name, key, anchor, note }`; `key` is searched. */
const groups = new Map();

const QUOTED = String.raw`"(?:[^"\\]|\\.)*"`;

/** The start of a line that defines an item: kind, identifier, quoted name and index. */
const DEFINITION = new RegExp(
  String.raw`^ *\((?:import ${QUOTED} ${QUOTED} \()?(func|type|table|memory|tag|global|elem|data) ` +
    String.raw`(?:(\$(?:${QUOTED}|[^\s()"]+)) )?(?:\(@name (${QUOTED})\) )?\(;(\d+);\)`,
);

/** The identifiers and the quoted strings of a text. */
const NAMES = new RegExp(String.raw`\$?${QUOTED}|\$[^\s()"]+`, "g");

/** The start of a field, or of a type in a group: its first word. */
const FIELD = /^ {2}\((@?[^\s()]+) ?|^ {4}\((type) /;

const TITLES = {
  func: "Functions", type: "Types", import: "Imports", table: "Tables", memory: "Memories", tag: "Tags",
  global: "Globals", export: "Exports", start: "Start", elem: "Element segments", data: "Data segments",
};

/** Records the item that a line defines, if it defines one, and returns it. */
function recordItem(part, line, text) {
  const match = DEFINITION.exec(text);
  if (!match) return undefined;
  const [, kind, id, name, digits] = match;
  const item = { kind, index: Number(digits), id, name: name ?? id?.slice(1) ?? "", part, line };
  items.set(kind + digits, item);
  if (id) indices.set(`${kind} ${id}`, item.index);
  return item;
}

/** Adds an entry to a group of the contents. */
function addEntry(title, entry) {
  if (!groups.has(title)) groups.set(title, []);
  groups.get(title).push(entry);
}

/** Adds a function to the contents. */
function addFunction(item, note) {
  const { index, name } = item;
  addEntry(TITLES.func, { index, name, key: name.toLowerCase(), anchor: `func${index}`, note });
}

/** Adds a field to the contents. It is found by the identifiers and the quoted strings in its text. */
function addField(part, line, text, item) {
  const match = FIELD.exec(text);
  const word = match?.[1] ?? match?.[2];
  if (!match || word === "rec") return;
  const isCustom = word.startsWith("@");
  const rest = text.slice(match[0].length).replace(/\(;\d+;\) ?/, "").replace(/\)$/, "").slice(0, 200);
  const key = [word, ...(rest.match(NAMES) ?? [])].join(" ").toLowerCase();
  const index = item?.kind === word ? item.index : "";
  const anchor = index === "" ? `0x${part.offset(line)}` : `${word}${index}`;
  const title = isCustom ? "Custom sections" : (TITLES[word] ?? "Other fields");
  addEntry(title, { index, name: isCustom ? `${word} ${rest}` : rest, key, anchor, note: () => "" });
}

groups.set(TITLES.func, []);
for (const part of parts) {
  const count = part.isFunction ? 1 : part.lines.length;
  for (let line = 0; line < count; line++) {
    const text = plain(part.text(line).slice(0, HEAD_LIMIT));
    const item = recordItem(part, line, text);
    if (part.isFunction) {
      if (item) addFunction(item, () => linesText(part.lineCount));
    } else {
      addField(part, line, text, item);
      if (item?.kind === "func") addFunction(item, () => "import");
    }
  }
}

/** Returns a number of lines in words. */
function linesText(count) {
  return count === 1 ? "1 line" : `${count.toLocaleString("en")} lines`;
}

// ---- Rows that are rendered when they come into view ----

/** The function that renders a chunk, by chunk. */
const fillers = new WeakMap();

/** Returns an observer that renders chunks near the visible part of an element, or of the window. */
function observe(root) {
  const fill = (entries) => entries.forEach((entry) => entry.isIntersecting && fillers.get(entry.target)?.());
  return new IntersectionObserver(fill, { root, rootMargin: "800px 0px" });
}

const pageObserver = observe(null);
const contentsObserver = observe(byId("contents"));

/**
 * Appends `count` rows of equal height to an element. Chunks of rows are rendered when they come into view.
 * Returns a function that renders a row at once, and returns its element.
 */
function appendRows(parent, count, renderRow, observer) {
  const chunks = [];
  for (let first = 0; first < count; first += ROWS_OF_CHUNK) {
    const end = Math.min(count, first + ROWS_OF_CHUNK);
    const chunk = make("div");
    chunk.style.height = `calc(var(--row) * ${end - first})`;
    fillers.set(chunk, () => {
      fillers.delete(chunk);
      observer.unobserve(chunk);
      for (let row = first; row < end; row++) chunk.append(renderRow(row));
      chunk.style.height = "";
    });
    observer.observe(chunk);
    chunks.push(chunk);
  }
  parent.append(...chunks);
  return (row) => {
    const chunk = chunks[Math.floor(row / ROWS_OF_CHUNK)];
    fillers.get(chunk)?.();
    return chunk.children[row % ROWS_OF_CHUNK];
  };
}

// ---- Lines ----

/** Operators of control, other operators, and names of locals and labels, of which the printer gives no style. */
const WORDS =
  /(?<![\w.$=])(?:(block|loop|if|else|end|br(?:_\w+)?|return(?:_\w+)?|call(?:_\w+)?|unreachable|throw(?:_\w+)?|try(?:_table)?|catch(?:_all)?|rethrow|delegate)|([a-z]\w*\.[\w.]+|drop|nop|select))(?![\w.=])|(\$(?:"(?:[^"\\]|\\.)*"|[^\s()"]+))/g;

/** Returns the kind of the item that a name refers to: the `position`th of `count` names after a word. */
function kindOfName(word, position, count) {
  if (/^(?:return_)?call$|^(?:ref\.func|start|func)$/.test(word)) return "func";
  if (word.endsWith("call_indirect")) return "table";
  if (/^(?:memory|table)\.init$/.test(word) && position === count - 1) return word === "memory.init" ? "data" : "elem";
  if (/^array\.(?:new|init)_(?:data|elem)$/.test(word) && position === 1) return word.slice(-4);
  const space = /^(?:global|table|memory|tag|elem|data)\b/.exec(word);
  if (space) return space[0];
  if (/\.(?:load|store|atomic)/.test(word)) return "memory";
  if (position > 0) return word === "array.copy" ? "type" : undefined;
  if (/^(?:throw|catch|catch_ref)$/.test(word)) return "tag";
  if (/^(?:struct|array|ref)\.|call_ref$|^(?:type|ref|null|sub|final)$/.test(word)) return "type";
  return undefined;
}

/** Returns the styled pieces of an encoded line, as pairs of a style and a text. */
function piecesOf(encoded) {
  const pieces = [];
  let style = "";
  for (const piece of encoded.split(CONTROLS)) {
    if (piece.length === 1 && piece <= "\u0006") style = STYLES[piece.charCodeAt(0)];
    else if (piece) pieces.push([style, decode(piece)]);
  }
  return pieces;
}

/** Finds the kinds of items that the names of a line refer to. The words before a name decide. */
class NameReader {
  constructor(pieces) {
    this.count = pieces.filter(([style]) => style === "name").length;
    this.open = [];
    this.word = "";
    this.position = 0;
  }
  /** Reads a piece of text between names. */
  read(text) {
    for (const [token] of text.matchAll(/[()]|[^\s()]+/g)) {
      if (token === "(") this.open.push([this.word, this.position]);
      if (token === ")") [this.word, this.position] = this.open.pop() ?? ["", 0];
      else [this.word, this.position] = [token === "(" ? "" : token, 0];
    }
  }
  /** Returns the item to which a name refers, or that it defines. */
  item(name) {
    const index = /\(;(\d+);\)$/.exec(name)?.[1];
    if (index) return items.get(this.word + index);
    const kind = kindOfName(this.word, this.position++, this.count);
    return items.get(kind + (name.startsWith("$") ? indices.get(`${kind} ${name}`) : name));
  }
}

/** Returns the anchor of an item. */
const anchorOf = (item) => `#${item.kind}${item.index}`;

/** Returns a name, as a link if it refers to an item of the module. */
function renderName(name, reader) {
  const item = reader.item(name.trim());
  if (!item) return make("span", "name", name);
  const link = make("a", "name", name);
  link.href = anchorOf(item);
  link.title = plain(item.part.text(item.line).slice(0, 400)).trim();
  return link;
}

/** Returns text without a style of the printer. Its operators get styles here. */
function renderPlain(text) {
  const nodes = [];
  let end = 0;
  for (const match of text.matchAll(WORDS)) {
    nodes.push(text.slice(end, match.index), make("span", match[1] ? "control" : match[2] ? "operator" : "name", match[0]));
    end = match.index + match[0].length;
  }
  return [...nodes, text.slice(end)];
}

/** Returns the text of a line, which ends after `limit` characters with a button that shows the others. */
function renderText(encoded, limit) {
  const element = make("span", "text");
  const pieces = piecesOf(encoded);
  const reader = new NameReader(pieces);
  let left = limit;
  for (const [style, text] of pieces) {
    if (left <= 0) break;
    const shown = text.length > left ? text.slice(0, left) : text;
    left -= text.length;
    if (style === "name") element.append(renderName(shown, reader));
    else {
      if (style !== "literal" && style !== "comment") reader.read(shown);
      element.append(...(style ? [make("span", style, shown)] : renderPlain(shown)));
    }
  }
  if (left < 0) element.append(renderMore(element, encoded));
  return element;
}

/** Returns a button that shows all of a line. */
function renderMore(element, encoded) {
  const button = make("button", "more", `show all ${encoded.length.toLocaleString("en")} characters`);
  button.onclick = () => element.replaceWith(renderText(encoded, Infinity));
  return button;
}

/** Returns a line with its offset, which is a link to the line. */
function renderLine(part, number) {
  const offset = part.offset(number);
  const link = make(offset ? "a" : "span", "offset", offset && `0x${offset}`);
  if (offset) link.href = `#0x${offset}`;
  return make("div", "line", link, renderText(part.text(number), LINE_LIMIT));
}

// ---- The text ----

let areAllOpen = false;

/** Appends the lines of a part from `first` on to an element. */
function appendLines(parent, part, first) {
  const lines = make("div", "lines");
  const show = appendRows(lines, part.lineCount - first, (row) => renderLine(part, row + first), pageObserver);
  part.showLine = (number) => show(number - first);
  parent.append(make("div", "scroll", lines));
}

/** Returns a function. Its lines are rendered when it is opened. */
function renderFunction(part) {
  const header = renderLine(part, 0);
  const summary = make("summary", "", header, make("small", "", linesText(part.lineCount)));
  const details = make("details", "", summary);
  const render = () => {
    if (!part.showLine && part.lineCount > 1) appendLines(details, part, 1);
  };
  details.addEventListener("toggle", () => details.open && render());
  part.open = (number) => {
    details.open = true;
    render();
    return number === 0 ? header : part.showLine(number);
  };
  details.open = areAllOpen;
  part.details = details;
  return details;
}

/** Appends functions, of which chunks are rendered when they come into view. */
function appendFunctions(functions) {
  const show = appendRows(byId("text"), functions.length, (row) => renderFunction(functions[row]), pageObserver);
  functions.forEach((part, row) => {
    part.show = (number) => {
      show(row);
      return part.open(number);
    };
  });
}

/** Appends all parts. Adjacent functions share chunks. */
function appendParts() {
  let functions = [];
  for (const part of [...parts, undefined]) {
    if (part?.isFunction) {
      functions.push(part);
      continue;
    }
    if (functions.length > 0) appendFunctions(functions);
    functions = [];
    if (part) {
      appendLines(byId("text"), part, 0);
      part.show = part.showLine;
    }
  }
}

// ---- Anchors ----

/** Returns the part and the line with this offset, or otherwise the last line before it. */
function placeOfOffset(offset) {
  const start = `\n${offset.toString(16)} `;
  for (const part of parts) {
    const at = part.data.indexOf(start);
    if (at >= 0) return { part, line: countOf("\n", part.data.slice(0, at)) };
  }
  const part = parts.findLast((part) => part.start <= offset);
  return part && { part, line: part.lines.findLastIndex((_, line) => parseInt(part.offset(line), 16) <= offset) };
}

/** Opens the function of a line, scrolls to the line and highlights it. */
function goTo({ part, line }) {
  const element = part.show(line);
  for (const old of document.querySelectorAll(".target")) old.classList.remove("target");
  element.classList.add("target");
  element.scrollIntoView({ block: "center", inline: "start" });
}

/** Goes to the line of an anchor, such as `#func3` or `#0x1f`. */
function goToAnchor(anchor) {
  const place = /^#0x[0-9a-f]+$/i.test(anchor) ? placeOfOffset(parseInt(anchor.slice(3), 16)) : items.get(anchor.slice(1));
  if (place) goTo(place);
}

window.addEventListener("hashchange", () => goToAnchor(location.hash));

document.addEventListener("click", (event) => {
  const link = event.target.closest("a");
  // A link to the present anchor changes nothing, so no other event follows.
  if (link?.hash === location.hash) goToAnchor(link.hash);
  if (link || !event.target.closest("#contents, #toggle-contents")) showContentsOverText(false);
});

// ---- The contents ----

/** Returns an entry of the contents. */
function renderEntry(entry) {
  const row = make("a", "row", make("b", "", String(entry.index)), make("span", "", entry.name), make("small", "", entry.note()));
  row.href = `#${entry.anchor}`;
  row.title = entry.name;
  return row;
}

/** Appends a group of the contents, whose entries are rendered when it is opened. */
function appendGroup(parent, title, entries, isOpen) {
  const count = entries.length.toLocaleString("en");
  const details = make("details", "", make("summary", "", `${title} `, make("small", "", count)));
  const render = () => {
    if (details.children.length === 1) appendRows(details, entries.length, (row) => renderEntry(entries[row]), contentsObserver);
  };
  details.addEventListener("toggle", () => details.open && render());
  details.open = isOpen;
  parent.append(details);
}

/** Returns whether an entry has this index, or this text in its name. */
function isMatch(entry, query) {
  return String(entry.index) === query || entry.key.includes(query);
}

/** Shows the groups of the contents, or those entries that match the query. Entries with that index are first. */
function showContents() {
  const query = byId("filter").value.trim().toLowerCase();
  const lists = make("div");
  lists.id = "lists";
  for (const [title, entries] of groups) {
    const matches = query ? entries.filter((entry) => isMatch(entry, query)) : entries;
    if (query) matches.sort((a, b) => (String(b.index) === query) - (String(a.index) === query));
    if (matches.length > 0) appendGroup(lists, title, matches, query !== "" || title === TITLES.func);
  }
  if (lists.children.length === 0) lists.append(make("p", "note", "No match."));
  byId("lists").replaceWith(lists);
}

byId("filter").addEventListener("input", showContents);

// ---- Find in the text ----

/** The place after which the next search starts. */
let found = { part: 0, line: -1 };

/** Returns the first line of a part from `first` on that contains a text, or -1. Offsets are not searched. */
function findLine(part, query, first) {
  if (!plain(part.data).toLowerCase().includes(query)) return -1;
  for (let line = first; line < part.lineCount; line++) {
    if (plain(part.text(line)).toLowerCase().includes(query)) return line;
  }
  return -1;
}

/** Goes to the next line that contains the text, and starts again after the last line. */
function findNext() {
  const query = byId("find-text").value.toLowerCase();
  if (query === "") return;
  for (let step = 0; step <= parts.length; step++) {
    const index = (found.part + step) % parts.length;
    const line = findLine(parts[index], query, step === 0 ? found.line + 1 : 0);
    if (line < 0) continue;
    byId("find-result").value = index < found.part || step === parts.length ? "from the start" : "";
    found = { part: index, line };
    goTo({ part: parts[index], line });
    return;
  }
  byId("find-result").value = "no match";
}

byId("find").addEventListener("submit", (event) => {
  event.preventDefault();
  findNext();
});

byId("find-text").addEventListener("input", () => {
  byId("find-result").value = "";
  found = { part: 0, line: -1 };
});

// ---- The buttons ----

/** Shows or hides the contents in a narrow window. A wide window always shows them. */
function showContentsOverText(isShown) {
  document.body.classList.toggle("show-contents", isShown);
  byId("toggle-contents").setAttribute("aria-expanded", String(isShown));
}

byId("toggle-contents").addEventListener("click", () => {
  showContentsOverText(!document.body.classList.contains("show-contents"));
});

byId("toggle-offsets").addEventListener("click", (event) => {
  const areHidden = document.documentElement.classList.toggle("hide-offsets");
  event.target.setAttribute("aria-pressed", String(!areHidden));
});

byId("toggle-all").addEventListener("click", (event) => {
  areAllOpen = !areAllOpen;
  for (const part of parts) if (part.details) part.details.open = areAllOpen;
  event.target.textContent = areAllOpen ? "Close all" : "Open all";
});

const prefersDark = matchMedia("(prefers-color-scheme: dark)");

/** Chooses a theme, or the system's. The button names the other theme. */
function showTheme(theme) {
  document.documentElement.dataset.theme = theme;
  const isDark = theme === "dark" || (theme === "" && prefersDark.matches);
  byId("toggle-theme").textContent = isDark ? "Light" : "Dark";
}

byId("toggle-theme").addEventListener("click", (event) => showTheme(event.target.textContent.toLowerCase()));
prefersDark.addEventListener("change", () => document.documentElement.dataset.theme === "" && showTheme(""));

// ---- The start ----

/** Shows the name of the file and the size of the module. */
function showTitle() {
  const module = byId("module");
  const bytes = Number(module.dataset.bytes);
  const name = decode(module.textContent);
  document.title = name;
  byId("title").textContent = name;
  byId("size").textContent = bytes === 1 ? "1 byte" : `${bytes.toLocaleString("en")} bytes`;
  document.documentElement.style.setProperty("--digits", String(bytes.toString(16).length + 2));
}

showTitle();
showTheme("");
appendParts();
showContents();
if (location.hash) {
  history.scrollRestoration = "manual";
  goToAnchor(location.hash);
}
</script>
"##;
