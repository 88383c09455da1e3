ghost use Rattle.std.specs.Prelude.{◌≡◌, ◌++◌, OnOk};
ghost use Rattle.carol_picture.specs.Style.{style};

use crate::texts::push_word;
use std::alloc::AllocError;

// How the lines and texts of each class look, and the ground on which they stand. The colours are
// told apart by colour-blind eyes, and nothing is said by a colour alone.
const STYLE: &[u8] = b"<style>
text { font: 12px 'DejaVu Sans Mono', Menlo, Consolas, monospace; fill: #000; }
.head { font-weight: bold; }
.place { text-anchor: middle; fill: #444; }
.number { text-anchor: end; fill: #444; }
polyline { fill: none; stroke: #000; stroke-width: 1.5; }
.lane { fill: #eee; stroke: none; }
.replica { stroke: #888; stroke-width: 3; }
.session { stroke: #bbb; stroke-width: 1; }
.grant { stroke: #56b4e9; stroke-width: 10; stroke-linecap: square; }
.query { marker-end: url(#query); }
.issue { marker-end: url(#issue); }
.release { marker-end: url(#release); }
.return { marker-end: url(#return); }
.barred { stroke: #d55e00; stroke-dasharray: 4 3; }
.barred { marker-start: url(#bars); marker-end: url(#refuse); }
.behind { stroke: #d55e00; stroke-dasharray: 1 3; marker-end: url(#refuse); }
.deliver { stroke: #0072b2; stroke-width: 2; marker-end: url(#deliver); }
.cut { stroke-dasharray: 6 4; marker-start: url(#end); marker-end: url(#end); }
.join { marker-start: url(#end); marker-end: url(#end); }
marker path { fill: none; stroke: #000; stroke-width: 3; }
marker .white { fill: #fff; stroke: #000; stroke-width: 1.5; }
marker .red { stroke: #d55e00; }
marker .blue { fill: #0072b2; stroke: none; }
</style>
<defs>
<marker id='query' markerWidth='14' markerHeight='14' refX='7' refY='7'
markerUnits='userSpaceOnUse'><circle class='white' cx='7' cy='7' r='4.5'/></marker>
<marker id='issue' markerWidth='14' markerHeight='14' refX='7' refY='7'
markerUnits='userSpaceOnUse'><circle cx='7' cy='7' r='5.5'/></marker>
<marker id='release' markerWidth='16' markerHeight='14' refX='8' refY='7'
markerUnits='userSpaceOnUse'><path d='M0 7h16'/></marker>
<marker id='return' markerWidth='14' markerHeight='14' refX='7' refY='7'
markerUnits='userSpaceOnUse'><rect x='2' y='2' width='10' height='10'/></marker>
<marker id='refuse' markerWidth='14' markerHeight='14' refX='7' refY='7'
markerUnits='userSpaceOnUse'><path class='red' d='M2 2l10 10m0 -10l-10 10'/></marker>
<marker id='bars' markerWidth='14' markerHeight='16' refX='7' refY='8'
markerUnits='userSpaceOnUse'><path class='red' d='M7 0v16'/></marker>
<marker id='deliver' markerWidth='12' markerHeight='12' refX='11' refY='6'
orient='auto' markerUnits='userSpaceOnUse'>
<path class='blue' d='M0 1l11 5l-11 5z'/></marker>
<marker id='end' markerWidth='8' markerHeight='14' refX='4' refY='7'
markerUnits='userSpaceOnUse'><path d='M4 1v12'/></marker>
<pattern id='rows' y='94' width='8' height='40' patternUnits='userSpaceOnUse'>
<rect width='8' height='20' fill-opacity='0.05'/></pattern>
</defs>
<rect width='100%' height='100%' fill='#fff'/>
<rect y='74' width='100%' height='100%' fill='url(#rows)'/>
";

/// Appends how an image looks.
#[tactic(auto, unfolding(crate::specs::Style::style))]
pub fn push_style(out: &mut Vec<u8>) -> Result<(), AllocError>
    ensures { OnOk result (out.new.items ≡ out.old.items ++ style) }
{
    push_word(out, STYLE)
}
