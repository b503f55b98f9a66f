//! The page of the terminal. It is made from page.html by tools/page.py.

/// The page, as it is served.
pub const PAGE: &str = r##"<!DOCTYPE html>
<html lang="en">
<head>
<meta charset="utf-8">
<title>Prestel</title>
<meta name="viewport" content="width=device-width, initial-scale=1">
<link rel="icon" href="data:,">
<style>
* { box-sizing: border-box; }
body {
  margin: 0; min-height: 100vh; min-height: 100dvh; padding: 12px;
  display: flex; flex-flow: column; align-items: center; justify-content: center; gap: 12px;
  background: #14171c; color: #d5dae1; font: 16px/1.4 system-ui, sans-serif;
}
#tube { padding: 14px; background: #000; border-radius: 10px; box-shadow: 0 0 0 1px #2c323b, 0 8px 40px #000; line-height: 0; }
canvas { image-rendering: pixelated; }
#below { display: flex; flex-flow: column; align-items: center; gap: 10px; }
#line, #said, #buttons { display: flex; align-items: center; justify-content: center; gap: 10px 16px; margin: 0; }
#said { gap: 9px; min-height: 1.4em; }
#lamp { flex: none; width: 10px; height: 10px; border-radius: 50%; background: #7a828e; }
.ringing #lamp { background: #ffc34d; }
.connected #lamp { background: #46d36b; }
.connected.keyed #lamp { background: #fff; box-shadow: 0 0 6px #fff; }
#help { margin: 0; color: #98a1ad; font-size: 14px; text-align: center; }
kbd { padding: 0 .35em; border: 1px solid #4a525e; border-radius: 4px; color: #d5dae1; font: inherit; }
button { border: 1px solid #4a525e; border-radius: 6px; background: #232830; color: inherit; font: inherit; touch-action: manipulation; }
button:active, button[aria-pressed=true] { background: #4a525e; }
button:focus-visible { outline: 2px solid #ffc34d; outline-offset: 1px; }
#line button { padding: 2px 10px; font-size: 14px; }
#letters, #pad { display: none; }
#pad { grid-template-columns: repeat(3, 1fr); gap: 8px; width: min(340px, 92vw); }
#pad button { height: clamp(40px, 8vh, 68px); font-size: 24px; }
#typed { position: fixed; left: 0; bottom: 0; width: 1px; height: 1px; padding: 0; border: 0; opacity: 0; font-size: 16px; }
.read { position: absolute; width: 1px; height: 1px; overflow: hidden; clip-path: inset(50%); white-space: pre; }
@media (pointer: coarse), (max-width: 640px) {
  body { padding: 8px; justify-content: flex-start; }
  #tube { padding: 6px; }
  #pad { display: grid; }
  #line { flex-flow: column; font-size: 15px; }
  #letters { display: block; }
  #line button { padding: 6px 14px; }
  #help { display: none; }
}
@media (pointer: coarse) and (max-height: 500px) {
  body { flex-flow: row; justify-content: center; }
  #below { max-width: 220px; text-align: center; }
  #pad { width: 200px; gap: 5px; }
  #pad button { height: 40px; }
}
</style>
</head>
<body>
<div id="tube"><canvas role="img" aria-label="The screen, whose text follows"></canvas></div>
<div id="text" class="read" role="region" aria-label="Text of the screen"></div>
<div id="below">
<div id="line">
<p id="said"><span id="lamp"></span><span id="state" role="status" aria-live="polite"></span></p>
<div id="buttons"><button id="letters" type="button">Letters</button><button id="reveal" type="button" aria-pressed="false">Reveal</button></div>
</div>
<div id="pad"></div>
<p id="help">Each key is sent at once: digits, letters, <kbd>*</kbd>, and <kbd>#</kbd> or <kbd>Enter</kbd>. <kbd>*90#</kbd> ends the call.</p>
</div>
<input id="typed" type="text" tabindex="-1" aria-label="Letters to send" autocomplete="off" autocapitalize="off" autocorrect="off" spellcheck="false">

<script id="terminal">
"use strict";
// What a viewdata terminal holds and shows of the bytes that it is sent. It knows nothing of a page.

const ROWS = 24, COLUMNS = 40, SPACE = 0x20, BLACK = 0, WHITE = 7;

// How the cells of a row look before its first attribute.
const PLAIN = { colour: WHITE, background: BLACK, mosaic: false, separated: false, double: false, hold: false, flash: false, conceal: false };

// What an attribute changes in its own cell already.
function setAt(style, attribute) {
  switch (attribute) {
    case 0x09: return { ...style, flash: false };
    case 0x0C: return { ...style, double: false };
    case 0x18: return { ...style, conceal: true };
    case 0x19: return { ...style, separated: false };
    case 0x1A: return { ...style, separated: true };
    case 0x1C: return { ...style, background: BLACK };
    case 0x1D: return { ...style, background: style.colour };
    case 0x1E: return { ...style, hold: true };
    default: return style;
  }
}

// What it changes from the next cell on. A colour ends what is concealed.
function setAfter(style, attribute) {
  const colour = attribute & 7;
  if (colour && attribute === colour) return { ...style, colour, mosaic: false, conceal: false };
  if (colour && attribute === 0x10 + colour) return { ...style, colour, mosaic: true, conceal: false };
  switch (attribute) {
    case 0x08: return { ...style, flash: true };
    case 0x0D: return { ...style, double: true };
    case 0x1F: return { ...style, hold: false };
    default: return style;
  }
}

// A cell as it is seen: its byte, whether that is a mosaic, and how it looks.
function seen(cell, style, mosaic, separated) {
  const { colour, background, double, flash, conceal } = style;
  return { cell, mosaic, separated, colour, background, double, flash, conceal };
}

// What is seen in each cell of a row, without regard to the rows above and below it.
function seenIn(row) {
  // The mosaic that is held is lost where letters or another height begin.
  let style = PLAIN, held = SPACE, apart = false;
  const shown = [];
  const change = next => {
    if (next.mosaic !== style.mosaic || next.double !== style.double) { held = SPACE; apart = false; }
    style = next;
  };
  for (const cell of row) {
    if (cell >= SPACE) {
      // Bytes 0x40 to 0x5F are letters among mosaics, too.
      const mosaic = style.mosaic && !(0x40 <= cell && cell <= 0x5F);
      if (mosaic) { held = cell; apart = style.separated; }
      shown.push(seen(cell, style, mosaic, style.separated));
    } else {
      change(setAt(style, cell));
      shown.push(style.hold && style.mosaic ? seen(held, style, true, apart) : seen(SPACE, style, false, style.separated));
      change(setAfter(style, cell));
    }
  }
  return shown;
}

class Terminal {
  constructor() {
    this.clear();
    this.waiting = false; // whether an escape was the last byte
    this.cursor = false; // whether the cursor is shown
  }

  clear() {
    this.cells = Array.from({ length: ROWS }, () => new Array(COLUMNS).fill(SPACE));
    this.row = this.column = 0;
  }

  take(bytes) {
    for (const byte of bytes) this.takeByte(byte);
  }

  takeByte(byte) {
    if (this.waiting) {
      this.waiting = false;
      if (0x40 <= byte && byte <= 0x5F) this.write(byte - 0x40);
    } else if (0x20 <= byte && byte <= 0x7F) {
      this.write(byte);
    } else {
      switch (byte) {
        case 0x08: this.move(-1); break;
        case 0x09: this.move(1); break;
        case 0x0A: this.row = (this.row + 1) % ROWS; break;
        case 0x0B: this.row = (this.row + ROWS - 1) % ROWS; break;
        case 0x0C: this.clear(); break;
        case 0x0D: this.column = 0; break;
        case 0x11: this.cursor = true; break;
        case 0x14: this.cursor = false; break;
        case 0x1B: this.waiting = true; break;
        case 0x1E: this.row = this.column = 0; break;
      }
    }
  }

  // A cell at the cursor, which goes on.
  write(cell) {
    this.cells[this.row][this.column] = cell;
    this.move(1);
  }

  // The cursor goes on or back, over the edges too. Nothing scrolls.
  move(by) {
    const place = (this.row * COLUMNS + this.column + by + ROWS * COLUMNS) % (ROWS * COLUMNS);
    this.row = Math.floor(place / COLUMNS);
    this.column = place % COLUMNS;
  }

  // What is seen in each cell of the screen. Its `half` is 1 in the upper half of what is two rows high, 2 in the lower, and else 0.
  // A row with anything two rows high covers the row below it. The last row has none below, and is one row high.
  shown() {
    const rows = [];
    while (rows.length < ROWS) {
      const row = seenIn(this.cells[rows.length]);
      const isHigh = row.some(one => one.double) && rows.length + 1 < ROWS;
      rows.push(row.map(one => ({ ...one, half: isHigh && one.double ? 1 : 0 })));
      if (isHigh) rows.push(row.map(one => one.double ? { ...one, half: 2 } : { ...seen(SPACE, PLAIN, false, false), background: one.background, half: 0 }));
    }
    return rows;
  }

  // The text of the screen: a space for what is no letter, or is concealed.
  text() {
    const letters = { 0x23: 0xA3, 0x5B: 0x2190, 0x5C: 0xBD, 0x5D: 0x2192, 0x5E: 0x2191, 0x5F: 0x23, 0x60: 0x2015, 0x7B: 0xBC, 0x7C: 0x2016, 0x7D: 0xBE, 0x7E: 0xF7, 0x7F: 0x25A0 };
    const letter = one => one.mosaic || one.conceal || one.half === 2 ? " " : String.fromCharCode(letters[one.cell] || one.cell);
    return this.shown().map(row => row.map(letter).join("").trimEnd()).join("\n").trimEnd();
  }
}
</script>

<script id="drawing">
"use strict";
// The letters 0x20 to 0x7F: nine rows of five dots each, a row as a digit of base 32.
const LETTERS = (
  "000000000 444440400 aaa000000 698s88v00 elke5le00 op248j300 8kk8lid00 444000000 " +
  "248884200 842224800 4le4el400 044v44000 000004480 000e00000 000000400 01248g000 " +
  "4ahhha400 4c4444e00 eh168gv00 v1261he00 26aiv2200 vgu11he00 68guhhe00 v12488800 " +
  "ehhehhe00 ehhf12c00 004000400 004004480 248g84200 00v0v0000 842124800 eh2440400 " +
  "ehnlnge00 4ahhvhh00 uhhuhhu00 ehggghe00 uhhhhhu00 vgguggv00 vgguggg00 ehggjhf00 " +
  "hhhvhhh00 e44444e00 11111he00 hikokih00 ggggggv00 hrllhhh00 hhpljhh00 ehhhhhe00 " +
  "uhhuggg00 ehhhlid00 uhhukih00 ehge1he00 v44444400 hhhhhhe00 hhhaa4400 hhhllla00 " +
  "hha4ahh00 hha444400 v1248gv00 048v84000 ggggm168f 042v24000 04el44000 aavavaa00 " +
  "000v00000 00e1fhf00 gguhhhu00 00fgggf00 11fhhhf00 00ehvge00 244e44400 00fhhhf1e " +
  "gguhhhh00 40c444e00 404444448 889aca900 c44444e00 00qllll00 00uhhhh00 00ehhhe00 " +
  "00uhhhugg 00fhhhf11 00bc88800 00fge1u00 44e444200 00hhhhf00 00hhaa400 00hhlla00 " +
  "00ha4ah00 00hhhhf1e 00v248v00 888893571 aaaaaaa00 o4o4p3571 040v04000 vvvvvvv00"
).split(" ");
const COLOURS = ["#000", "#f00", "#0f0", "#ff0", "#00f", "#f0f", "#0ff", "#fff"];
// A cell has twelve by twenty points, which are half dots. The six squares of a mosaic: the weight, and the points from left to right and from top to bottom.
const WIDE = 12, HIGH = 20;
const SQUARES = [[1, 0, 6, 0, 6], [2, 6, 12, 0, 6], [4, 0, 6, 6, 14], [8, 6, 12, 6, 14], [16, 0, 6, 14, 20], [64, 6, 12, 14, 20]];

// The runs of lit points of a letter: from left to right, and from top to bottom. Where two dots meet at a corner the steps are filled, as a television did.
function runsOf(letter) {
  const rows = [...LETTERS[letter - SPACE]].map(row => parseInt(row, 32));
  const dot = (x, y) => 0 <= x && x < 5 && rows[y] >> (4 - x) & 1;
  const runs = [];
  for (let y = 0; y < 2 * rows.length; y++) {
    let from = -1;
    for (let x = 0; x <= 10; x++) {
      const at = x >> 1, row = y >> 1, side = at + (x & 1 ? 1 : -1), other = row + (y & 1 ? 1 : -1);
      const lit = dot(at, row) || dot(side, row) && dot(at, other) && !dot(side, other);
      if (lit && from < 0) from = x;
      if (!lit && from >= 0) { runs.push([from + 1, x + 1, y + 2, y + 3]); from = -1; }
    }
  }
  return runs;
}
const RUNS = LETTERS.map((_, at) => runsOf(at + SPACE));

// The lit points of a cell.
function runsIn(one) {
  if (!one.mosaic) return RUNS[one.cell - SPACE];
  const gap = one.separated ? 2 : 0;
  return SQUARES.filter(([weight]) => one.cell - SPACE & weight).map(([, left, right, top, bottom]) => [left + gap, right, top + gap, bottom]);
}

const canvas = document.querySelector("canvas");
const pen = canvas.getContext("2d", { alpha: false });
const terminal = new Terminal();
const isStill = matchMedia("(prefers-reduced-motion: reduce)");
let wide = WIDE, high = HIGH, drawn = [], isLit = true, isRevealed = false;

// Draws a cell whose upper left corner is at this place of the screen.
function drawCell(one, row, column, isSeen, hasCursor) {
  const x = column * wide, y = row * high;
  const across = point => Math.round(point * wide / WIDE);
  const down = point => Math.round(Math.min(Math.max(one.half ? 2 * point - (one.half - 1) * HIGH : point, 0), HIGH) * high / HIGH);
  pen.fillStyle = COLOURS[one.background];
  pen.fillRect(x, y, wide, high);
  pen.fillStyle = COLOURS[one.colour];
  for (const [left, right, top, bottom] of isSeen ? runsIn(one) : []) {
    pen.fillRect(x + across(left), y + down(top), across(right) - across(left), down(bottom) - down(top));
  }
  if (hasCursor) {
    pen.fillStyle = COLOURS[WHITE];
    pen.fillRect(x, y + high - Math.ceil(high / 10), wide, Math.ceil(high / 10));
  }
}

// Draws what is not drawn yet.
function draw() {
  const lit = isLit || isStill.matches;
  terminal.shown().forEach((cells, row) => cells.forEach((one, column) => {
    const isSeen = (lit || !one.flash) && (isRevealed || !one.conceal);
    const hasCursor = lit && terminal.cursor && row === terminal.row && column === terminal.column;
    const all = [one.cell, one.mosaic, one.separated, one.colour, one.background, one.half, isSeen, hasCursor].join();
    if (drawn[row * COLUMNS + column] !== all) {
      drawCell(one, row, column, isSeen, hasCursor);
      drawn[row * COLUMNS + column] = all;
    }
  }));
}

// The largest size of a cell that fits, with a screen of about four by three. On a coarse screen each dot is as large as any other.
function cellSize(width, height, ratio) {
  if (ratio >= 2) {
    const across = Math.max(WIDE, Math.floor(Math.min(width * ratio / COLUMNS, height * ratio / ROWS / 1.25)));
    return [across, Math.round(across * 1.25)];
  }
  let best = [6, 10];
  for (let x = 1; x * 6 * COLUMNS <= width * ratio; x++) {
    for (let y = 1; y * 10 * ROWS <= height * ratio; y++) {
      const shape = x / y;
      if ((x === y || 1.2 <= shape && shape <= 1.5) && x * y * 60 >= best[0] * best[1]) best = [x * 6, y * 10];
    }
  }
  return best;
}

function resize() {
  const ratio = devicePixelRatio || 1, tube = document.getElementById("tube"), below = document.getElementById("below");
  const edge = 2 * parseFloat(getComputedStyle(tube).padding), margin = 2 * parseFloat(getComputedStyle(document.body).padding);
  const isBeside = getComputedStyle(document.body).flexDirection === "row";
  const width = document.documentElement.clientWidth - margin - edge - (isBeside ? below.offsetWidth + 12 : 0);
  const height = innerHeight - margin - edge - (isBeside ? 0 : below.offsetHeight + 12);
  [wide, high] = cellSize(width, Math.max(height, 200), ratio);
  canvas.width = COLUMNS * wide;
  canvas.height = ROWS * high;
  canvas.style.width = canvas.width / ratio + "px";
  canvas.style.height = canvas.height / ratio + "px";
  drawn = [];
  draw();
}
addEventListener("resize", resize);
// What flashes is dark for a quarter of each second.
setInterval(() => {
  const lit = Date.now() % 1000 < 750;
  if (lit !== isLit) { isLit = lit; draw(); }
}, 125);
</script>

<script id="call">
"use strict";
// A call: a socket whose binary messages are the bytes of the line, both ways.
const HASH = 0x5F;
let socket = null, state = "";

function say(next, words) {
  state = next;
  document.getElementById("line").className = next;
  document.getElementById("state").textContent = words;
}

function dial() {
  const own = new WebSocket(location.origin.replace(/^http/, "ws") + "/call");
  own.binaryType = "arraybuffer";
  socket = own;
  // The last call may have ended between the two bytes of an attribute.
  terminal.waiting = false;
  say("ringing", "Ringing.");
  own.onmessage = event => {
    if (!(event.data instanceof ArrayBuffer)) return;
    if (state === "ringing") say("connected", "Connected.");
    terminal.take(new Uint8Array(event.data));
    draw();
    read();
  };
  own.onclose = () => say("over", state === "connected" ? "The call has ended: press a key to dial again." : "There is no answer: press a key to dial again.");
}

// What a screen reader reads: once the bytes of a screen have come.
let reading = 0;
function read() {
  clearTimeout(reading);
  reading = setTimeout(() => { document.getElementById("text").textContent = terminal.text(); }, 100);
}

// The byte that a key sends: itself, or # as Prestel's terminals sent it. The key _ has no byte of its own, since that is #.
function byteOf(key) {
  if (key === "#" || key === "Enter") return HASH;
  const byte = key.length === 1 ? key.charCodeAt(0) : 0;
  return 0x20 <= byte && byte <= 0x7E && byte !== HASH ? byte : 0;
}

// A key, or more than one at once, a hundred to a message. After a call any of them dials again, and is not sent.
let lamp = 0;
function press(keys) {
  const bytes = keys.map(byteOf).filter(byte => byte);
  if (!bytes.length) return;
  if (state === "over") return dial();
  if (state !== "connected") return;
  for (let at = 0; at < bytes.length; at += 100) socket.send(Uint8Array.from(bytes.slice(at, at + 100)));
  const line = document.getElementById("line");
  line.classList.add("keyed");
  clearTimeout(lamp);
  lamp = setTimeout(() => line.classList.remove("keyed"), 120);
}

addEventListener("keydown", event => {
  const isButton = event.target instanceof HTMLButtonElement && (event.key === "Enter" || event.key === " ");
  if (event.ctrlKey || event.metaKey || event.altKey && !event.getModifierState("AltGraph") || event.isComposing || isButton || !byteOf(event.key)) return;
  event.preventDefault();
  // A key that is held down is one key: what it asks for may have a price.
  if (!event.repeat) press([event.key]);
});
addEventListener("paste", event => {
  event.preventDefault();
  press([...event.clipboardData.getData("text/plain").replace(/[\r\n]/g, "")]);
});

// A telephone's keyboard writes into a field that is not seen.
const typed = document.getElementById("typed");
typed.addEventListener("input", event => {
  if (event.isComposing) return;
  press([...typed.value]);
  typed.value = "";
});
typed.addEventListener("compositionend", () => { press([...typed.value]); typed.value = ""; });
document.getElementById("letters").addEventListener("click", () => typed.focus());

for (const key of "123456789*0#") {
  const button = document.createElement("button");
  button.type = "button";
  button.textContent = key;
  button.addEventListener("click", () => press([key]));
  document.getElementById("pad").append(button);
}
document.getElementById("reveal").addEventListener("click", event => {
  isRevealed = !isRevealed;
  event.target.setAttribute("aria-pressed", isRevealed);
  draw();
});
canvas.addEventListener("click", () => { if (state === "over") dial(); });
// A button that was clicked does not keep Enter for itself.
addEventListener("click", event => { if (event.detail && event.target instanceof HTMLButtonElement) event.target.blur(); });

resize();
dial();
</script>
</body>
</html>
"##;
