//! The page for a browser.

use std::alloc::Global;
use vsync_text::Text;

// It asks for the status, for what is kept and for the last events each second, by itself.
const PAGE: &[u8] =
    b"<!doctype html><meta charset=utf-8><meta name=viewport content='width=device-width'><title>vsync</title>\
<style>body{font:15px/1.4 sans-serif;margin:1.5em;max-width:72em}h1{font-size:1.3em}h2{font-size:1.05em;margin:1.2em 0 .3em}\
td{padding:.1em 1em .1em 0;vertical-align:top;word-break:break-all}td:first-child{color:#555;min-width:11em}pre{margin:0;max-height:14em;overflow:auto;background:#f6f6f6;padding:.5em}\
div{max-height:24em;overflow:auto;border:1px solid #ddd}img{display:block}#bad{color:#a00}</style>\
<h1>vsync <span id=own></span> <span id=bad></span></h1><h2>The view</h2><table id=status></table>\
<h2 id=name>What is kept</h2><div><table id=kept></table></div><h2>The last events</h2><pre id=events></pre><h2>Their picture</h2><div><img id=picture alt=''></div>\
<script>\
const get=id=>document.getElementById(id);\
function show(id,rows){const t=get(id);t.replaceChildren();\
for(const [k,v] of Object.entries(rows)){const r=t.insertRow();r.insertCell().textContent=k;\
r.insertCell().textContent=typeof v==='string'?v:JSON.stringify(v)}}\
let last='';\
async function turn(){try{const s=await(await fetch('/status')).json();show('status',s);get('own').textContent=s.address;get('bad').textContent='';\
if(s.keeps!=='other'){get('name').textContent=s.keeps==='map'?'The map':'The locks';show('kept',await(await fetch('/'+s.keeps)).json())}\
const e=await(await fetch('/events')).text();if(e!==last){last=e;const p=get('events');p.textContent=e;p.scrollTop=p.scrollHeight;\
const i=get('picture'),b=await(await fetch('/picture',{cache:'no-store'})).blob();URL.revokeObjectURL(i.src);i.src=URL.createObjectURL(b)}}\
catch(e){get('bad').textContent='no answer: '+e}setTimeout(turn,1000)}turn()</script>\n";

/// The page.
pub(crate) fn page(alloc: Global) -> Text {
    let mut page = Text::new(alloc);
    page.put(PAGE);
    page
}
